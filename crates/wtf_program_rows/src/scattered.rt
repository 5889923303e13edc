//! A file of many scattered writes whose lists are made compact, spilled, written over, saved, and loaded by another run.

use std::alloc::Global;
use std::test::Fail;
use wtf_dev::{MemStore, Shelf};
use wtf_trial::devices::{NONE, run_on, stores};
use wtf_trial::wanted::Wanted;

/// The file has three regions, and each gets some 1,700 writes.
const WORDS: &str = "--region 16384";

const SETTINGS: &str = "wtf servers 4 replicas 2 region 16384 number";

/// How many regions the file has.
const REGIONS: usize = 3;

/// How many bytes it has: the first transaction makes it so long.
const LENGTH: usize = 49_152;

/// The first bytes of each write; its number stands behind them.
const FRONT: usize = 10_000_000;

/// Lines about the file `/a` with their answers, its bytes behind them, and the number of installs.
#[derive(Drop)]
struct Scattered {
    alloc: Global,
    wanted: Wanted,
    bytes: Vec<u8>,
    number: u64,
}

/// The digit of half a byte.
fn digit(half: u8) -> u8 {
    if half < 10 {
        return b'0'.wrapping_add(half);
    }
    b'a'.wrapping_add(half.wrapping_sub(10))
}

/// Adds the digits of these bytes.
fn add_digits(text: &mut Vec<u8>, bytes: &[u8]) -> Result<(), Fail> {
    for byte in bytes.iter() {
        text.push(digit(*byte >> 4))?;
        text.push(digit(*byte & 15))?;
    }
    Ok(())
}

/// Where a write begins: at a fixed stride, round the file.
fn place(write: usize, stride: usize) -> usize {
    write.wrapping_mul(stride) % (LENGTH - 8)
}

/// Puts eight bytes, one after another, at a place.
fn overwrite(bytes: &mut Vec<u8>, at: usize, text: &[u8]) {
    for (i, byte) in text.iter().enumerate() {
        if let Some(place) = bytes.get_mut(at.wrapping_add(i)) {
            *place = *byte;
        }
    }
}

/// The lines that make an empty file.
fn begun(alloc: Global) -> Result<Wanted, Fail> {
    let line = first_line(alloc, 0)?;
    let mut wanted = Wanted::new(alloc, line.as_str())?;
    add_file(&mut wanted, alloc)?;
    Ok(wanted)
}

fn add_file(wanted: &mut Wanted, alloc: Global) -> Result<(), Fail> {
    wanted.add("c0 begin => begun 0\nc0 create /a => ok\nc0 open f0 /a => ok\n")?;
    let length = format!(in alloc; "c0 truncate f0 {LENGTH} => ok\nc0 try => committed 1\n")?;
    wanted.add(length.as_str())
}

impl Scattered {
    /// An empty file.
    fn new(alloc: Global) -> Result<Scattered, Fail> {
        let wanted = begun(alloc)?;
        let bytes = vec![in alloc; 0; LENGTH]?;
        Ok(Scattered {
            alloc,
            wanted,
            bytes,
            number: 1,
        })
    }

    /// Another run on what the first left, with no line yet.
    fn another_run(&mut self) -> Result<(), Fail> {
        let line = first_line(self.alloc, self.number)?;
        self.wanted = Wanted::new(self.alloc, line.as_str())?;
        Ok(())
    }

    /// The number of the next install.
    fn install(&mut self) -> u64 {
        self.number = self.number.saturating_add(1);
        self.number
    }

    /// Puts the digits of a number at a place.
    fn put(&mut self, at: usize, number: usize) -> Result<(), Fail> {
        let text = format!(in self.alloc; "{number}")?;
        overwrite(&mut self.bytes, at, text.as_bytes());
        Ok(())
    }

    /// A write of eight bytes.
    fn write(&mut self, write: usize, stride: usize) -> Result<(), Fail> {
        let (at, number) = (place(write, stride), write.wrapping_add(FRONT));
        self.put(at, number)?;
        let lines = format!(in self.alloc;
            "c0 seek f0 set {at} => ok\nc0 write f0 t:{number} => ok\n"
        )?;
        self.wanted.add(lines.as_str())
    }

    fn begin(&mut self) -> Result<(), Fail> {
        let begin = format!(in self.alloc;
            "c0 begin => begun {}\nc0 open f0 /a => ok\n",
            self.number
        )?;
        self.wanted.add(begin.as_str())
    }

    fn commit(&mut self) -> Result<(), Fail> {
        let number = self.install();
        let end = format!(in self.alloc; "c0 try => committed {number}\n")?;
        self.wanted.add(end.as_str())
    }

    /// A transaction of writes.
    fn write_all(&mut self, from: usize, to: usize, stride: usize) -> Result<(), Fail> {
        self.begin()?;
        for write in from..to {
            self.write(write, stride)?;
        }
        self.commit()
    }

    /// A job of this kind on a region.
    fn job(&mut self, kind: &str, region: usize) -> Result<(), Fail> {
        let number = self.install();
        let lines = format!(in self.alloc;
            "sys plan j{region} {kind} /a {region} => planned\nsys put j{region} => installed {number}\n"
        )?;
        self.wanted.add(lines.as_str())
    }

    /// The same on each region.
    fn jobs(&mut self, kind: &str) -> Result<(), Fail> {
        for region in 0..REGIONS {
            self.job(kind, region)?;
        }
        Ok(())
    }

    /// The whole file is shown.
    fn dump(&mut self) -> Result<(), Fail> {
        self.wanted.script.extend_from_slice(b"sys dump /a\n")?;
        self.wanted.output.extend_from_slice(b"data x:")?;
        add_digits(&mut self.wanted.output, self.bytes.as_slice())?;
        self.wanted.output.push(b'\n')?;
        Ok(())
    }

    /// The tree is saved.
    fn save(&mut self) -> Result<(), Fail> {
        let line = format!(in self.alloc; "sys save => saved {}\n", self.number)?;
        self.wanted.add(line.as_str())
    }

    /// The first run: 5,000 writes, jobs of both kinds, writes over the spilled lists, and a job that is not put.
    fn first_run(&mut self) -> Result<(), Fail> {
        self.write_all(0, 2_000, 7_919)?;
        self.write_all(2_000, 4_000, 7_919)?;
        self.write_all(4_000, 5_000, 7_919)?;
        self.dump()?;
        self.jobs("compact")?;
        self.dump()?;
        self.jobs("spill")?;
        self.dump()?;
        self.write_all(5_000, 5_300, 104_729)?;
        self.wanted.add("sys plan j7 compact /a 0 => planned\n")?;
        self.save()
    }

    /// The second: the file is shown, once and again, also behind jobs on lists that lie in slices.
    fn second_run(&mut self) -> Result<(), Fail> {
        self.another_run()?;
        self.wanted.add("sys put j7 => refused nojob\n")?;
        self.dump()?;
        self.dump()?;
        self.jobs("spill")?;
        self.write_all(5_300, 5_400, 7_919)?;
        self.jobs("compact")?;
        self.dump()
    }

    /// The image that a run of the lines leaves, which ends well with the output that is wanted.
    fn image(&self, shelf: &mut Shelf<MemStore>, kept: &[u8]) -> Result<Vec<u8>, Fail> {
        let script = self.wanted.script.as_slice();
        let ended = run_on(self.alloc, WORDS, script, NONE, shelf, kept)?;
        ended.kept_behind(self.wanted.output.as_slice())
    }

    /// The lengths of the images that both runs leave.
    fn lengths(&mut self, shelf: &mut Shelf<MemStore>) -> Result<(usize, usize), Fail> {
        self.first_run()?;
        let first = self.image(shelf, &[])?;
        self.second_run()?;
        let second = self.image(shelf, first.as_slice())?;
        Ok((first.len(), second.len()))
    }
}

/// The line that a run begins with, by the number of installs.
fn first_line(alloc: Global, number: u64) -> Result<String, Fail> {
    Ok(format!(in alloc; "{SETTINGS} {number}\n")?)
}

fn lengths(alloc: Global) -> Result<(usize, usize), Fail> {
    let mut file = Scattered::new(alloc)?;
    let mut shelf = stores(alloc, 16, 0, None)?;
    file.lengths(&mut shelf)
}

/// Spilled lists take their entries out of the image, which then has only those of the writes behind.
#[test]
fn scattered_writes_outlive_their_lists(rt: HostRuntime) -> Result<(), Fail> {
    let (first, second) = lengths(rt.alloc())?;
    assert!(rt; first < 16_384 && second > 16_384, "{first} {second}");
    Ok(())
}
