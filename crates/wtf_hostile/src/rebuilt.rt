//! A run on an image, written again as one on an empty store: the checker knows no images.

use crate::texts::text_of;
use std::alloc::Global;
use std::io;

/// How many digits a line of data has: two for each byte.
const DIGITS: usize = 16_000;

/// Behind the looks at an image these lines change it, whatever it holds.
const CHANGES: &str = "c0 begin
c0 create /new
c0 open f0 /new
c0 append f0 t:abc
c0 seek f0 set 1
c0 write f0 t:XYZ
c0 try
sys tree
sys dump /new
";

/// Lines that make a tree, and an output.
#[derive(Drop)]
pub struct Rebuilt {
    pub lines: Vec<u8>,
    pub output: Vec<u8>,
}

/// The path and the length of a file in the answer to `sys tree`.
fn file_of(word: &str) -> Option<(&str, &str)> {
    let Some(rest) = word.strip_prefix("f:") else {
        return None;
    };
    rest.rsplit_once(':')
}

/// Appends the lines that look at a tree, which an answer shows, and at each of its files, and then change it.
pub fn push_looks(lines: &mut Vec<u8>, tree: &str) -> io::Result<()> {
    push_words(lines, &["sys tree\n"])?;
    for word in tree.split(' ') {
        if let Some((path, _)) = file_of(word) {
            push_words(lines, &["sys dump ", path, "\n"])?;
        }
    }
    push_words(lines, &[CHANGES])
}

/// Appends words.
fn push_words(text: &mut Vec<u8>, words: &[&str]) -> io::Result<()> {
    for word in words.iter() {
        text.extend_from_slice(word.as_bytes())?;
    }
    Ok(())
}

/// The number of installs in a line of settings, and what stands before it.
fn number_in(settings: &str) -> Option<(&str, u64)> {
    let Some((front, number)) = settings.rsplit_once(' ') else {
        return None;
    };
    let Ok(number) = number.parse() else {
        return None;
    };
    Some((front, number))
}

/// The word and the number of an answer that has a number of installs.
fn told_in(answer: &str) -> Option<(&str, u64)> {
    if !answer.starts_with("begun ") && !answer.starts_with("committed ") {
        return None;
    }
    number_in(answer)
}

impl Rebuilt {
    /// No line yet.
    pub fn new(alloc: Global) -> Rebuilt {
        Rebuilt {
            lines: Vec::new(alloc),
            output: Vec::new(alloc),
        }
    }

    /// The lines that make the tree that a run on an image shows first, and the whole output of a run of these, and of the lines
    /// of that run behind them, on an empty store. There one transaction makes the tree, so that its number is 1 then. Says
    /// whether the output had its settings.
    pub fn make(&mut self, alloc: Global, output: &str) -> io::Result<bool> {
        let Some((settings, answers)) = output.split_once('\n') else {
            return Ok(false);
        };
        let Some((front, number)) = number_in(settings) else {
            return Ok(false);
        };
        push_words(&mut self.output, &[front, " 0\n"])?;
        self.make_tree(answers)?;
        self.go_on(alloc, answers, number)?;
        Ok(true)
    }

    /// Adds a line and its answer.
    fn add(&mut self, line: &[&str], answer: &str) -> io::Result<()> {
        push_words(&mut self.lines, line)?;
        push_words(&mut self.lines, &["\n"])?;
        push_words(&mut self.output, &[answer, "\n"])
    }

    /// Adds the transaction that makes the tree of the first answer, whose files have the bytes of the answers behind it.
    fn make_tree(&mut self, answers: &str) -> io::Result<()> {
        let mut dumps = answers.split('\n');
        let tree = dumps.next().unwrap_or("");
        self.add(&["c0 begin"], "begun 0")?;
        for word in tree.split(' ') {
            if let Some(path) = word.strip_prefix("d:") {
                self.make_folder(path)?;
            }
            if let Some((path, _)) = file_of(word) {
                let bytes = dumps.next().unwrap_or("");
                self.make_file(path, bytes)?;
            }
        }
        self.add(&["c0 try"], "committed 1")
    }

    /// Makes a directory; the root is there.
    fn make_folder(&mut self, path: &str) -> io::Result<()> {
        if path == "/" {
            return Ok(());
        }
        self.add(&["c0 mkdir ", path], "ok")
    }

    /// Makes a file with the bytes of an answer that shows them.
    fn make_file(&mut self, path: &str, shown: &str) -> io::Result<()> {
        self.add(&["c0 create ", path], "ok")?;
        self.add(&["c0 open f0 ", path], "ok")?;
        let digits = shown.strip_prefix("data x:").unwrap_or("");
        for part in digits.as_bytes().chunks(DIGITS) {
            self.add(&["c0 write f0 x:", text_of(part)], "ok")?;
        }
        self.add(&["c0 close f0"], "ok")
    }

    /// Adds the answers, with the numbers of installs from 1 on in place of those from the image's on.
    fn go_on(&mut self, alloc: Global, answers: &str, number: u64) -> io::Result<()> {
        for answer in answers.split('\n') {
            if !answer.is_empty() {
                self.add_shifted(alloc, answer, number)?;
            }
        }
        Ok(())
    }

    /// Adds an answer, whose number of installs is another.
    fn add_shifted(&mut self, alloc: Global, answer: &str, number: u64) -> io::Result<()> {
        let Some((word, told)) = told_in(answer) else {
            return push_words(&mut self.output, &[answer, "\n"]);
        };
        let now = told.wrapping_sub(number).wrapping_add(1);
        let shifted = format!(in alloc; "{word} {now}\n")?;
        push_words(&mut self.output, &[shifted.as_str()])
    }
}
