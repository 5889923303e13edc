//! What an image names on the stores: its slices, and those of the lists that lie in slices.

use std::alloc::Global;
use std::test::Fail;
use wtf_dev::{MemStore, Shelf, SliceStore};

/// Bytes of a file of a server, up to and without `to`.
#[derive(Clone, Copy)]
pub(crate) struct Span {
    pub(crate) server: u8,
    pub(crate) file: u8,
    pub(crate) from: u64,
    pub(crate) to: u64,
}

/// Bytes that are read one after another; behind the last one come zeros.
#[derive(Drop)]
struct Reader<'a> {
    bytes: &'a [u8],
    at: usize,
}

impl Reader<'_> {
    fn byte(&mut self) -> u8 {
        let byte = self.bytes.get(self.at).copied().unwrap_or(0);
        self.at = self.at.saturating_add(1);
        byte
    }

    /// The next number, of so many bytes, the most significant first.
    fn number(&mut self, bytes: u8) -> u64 {
        let mut n = 0u64;
        for _ in 0..bytes {
            n = n.wrapping_mul(256).wrapping_add(self.byte() as u64);
        }
        n
    }

    fn skip(&mut self, bytes: u64) {
        self.at = self.at.saturating_add(bytes as usize);
    }

    /// The next pointer, to so many bytes.
    fn pointer(&mut self, len: u64) -> Span {
        let server = self.byte();
        let file = self.byte();
        let from = self.number(8);
        Span {
            server,
            file,
            from,
            to: from.wrapping_add(len),
        }
    }

    /// Behind the paths, which stand behind 30 bytes of settings and numbers.
    fn skip_paths(&mut self) {
        self.skip(30);
        let paths = self.number(4);
        for _ in 0..paths {
            let len = self.number(2);
            self.skip(len);
            if self.byte() == 1 {
                self.skip(12);
            }
        }
    }
}

/// Adds the copies of the next slice, of so many bytes, and answers the last of them.
fn add_slice(from: &mut Reader<'_>, len: u64, named: &mut Vec<Span>) -> Result<Span, Fail> {
    let width = from.byte();
    let mut last = Span {
        server: 0,
        file: 0,
        from: 0,
        to: 0,
    };
    for _ in 0..width {
        last = from.pointer(len);
        named.push(last)?;
    }
    Ok(last)
}

/// Adds what the next list of entries names.
fn add_entries(from: &mut Reader<'_>, named: &mut Vec<Span>) -> Result<(), Fail> {
    let entries = from.number(4);
    for _ in 0..entries {
        from.skip(4);
        let len = from.number(4);
        if from.byte() == 1 {
            add_slice(from, len, named)?;
        }
    }
    Ok(())
}

/// Adds what the list names that lies in a slice: its entries stand behind a word of four bytes.
fn add_list(
    alloc: Global,
    slice: Span,
    shelf: &mut Shelf<MemStore>,
    named: &mut Vec<Span>,
) -> Result<(), Fail> {
    let bytes = file_of(alloc, shelf, slice.server, slice.file)?;
    let mut list = Reader {
        bytes: bytes.as_slice(),
        at: (slice.from as usize).saturating_add(4),
    };
    add_entries(&mut list, named)
}

/// Adds what the next region names: by its base, by the list that lies there, and by its entries.
fn add_region(
    alloc: Global,
    from: &mut Reader<'_>,
    shelf: &mut Shelf<MemStore>,
    named: &mut Vec<Span>,
) -> Result<(), Fail> {
    from.skip(6);
    if from.byte() == 1 {
        from.skip(4);
        let len = from.number(4);
        let base = add_slice(from, len, named)?;
        add_list(alloc, base, shelf, named)?;
    }
    add_entries(from, named)
}

/// Adds what the next file names.
fn add_file(
    alloc: Global,
    from: &mut Reader<'_>,
    shelf: &mut Shelf<MemStore>,
    named: &mut Vec<Span>,
) -> Result<(), Fail> {
    from.skip(14);
    let regions = from.number(2);
    for _ in 0..regions {
        add_region(alloc, from, shelf, named)?;
    }
    Ok(())
}

/// Adds what an image names, through its lists too.
fn add_image(
    alloc: Global,
    image: &[u8],
    shelf: &mut Shelf<MemStore>,
    named: &mut Vec<Span>,
) -> Result<(), Fail> {
    let mut from = Reader {
        bytes: image,
        at: 0,
    };
    from.skip_paths();
    let files = from.number(4);
    for _ in 0..files {
        add_file(alloc, &mut from, shelf, named)?;
    }
    Ok(())
}

/// The same alone, sorted.
pub(crate) fn names_of(
    alloc: Global,
    image: &[u8],
    shelf: &mut Shelf<MemStore>,
) -> Result<Vec<Span>, Fail> {
    let mut named = Vec::new(alloc);
    add_image(alloc, image, shelf, &mut named)?;
    named.sort_by_key(|s| (s.server, s.file, s.from))?;
    Ok(named)
}

/// How many bytes of a server sorted spans have.
pub(crate) fn bytes_on(named: &[Span], server: u8) -> u64 {
    let (mut sum, mut file, mut at) = (0u64, 0u8, 0u64);
    for s in named.iter() {
        if s.server != server {
            continue;
        }
        if s.file != file {
            file = s.file;
            at = 0;
        }
        sum = sum.saturating_add(s.to.saturating_sub(s.from.max(at)));
        at = at.max(s.to);
    }
    sum
}

/// How many bytes the files of a server have.
pub(crate) fn held(shelf: &Shelf<MemStore>, server: u8) -> u64 {
    if server >= shelf.len() {
        return 0;
    }
    let mut sum = 0u64;
    for file in 0..8u8 {
        sum = sum.saturating_add(shelf.length(server, file));
    }
    sum
}

/// A file of a server, whole.
pub(crate) fn file_of(
    alloc: Global,
    shelf: &mut Shelf<MemStore>,
    server: u8,
    file: u8,
) -> Result<Vec<u8>, Fail> {
    if server >= shelf.len() || file >= 8 {
        return Err(Fail::from("no such file"));
    }
    let len = shelf.length(server, file);
    let mut bytes = vec![in alloc; 0; len as usize]?;
    if shelf
        .store(server)
        .read(file, 0, bytes.as_mut_slice())
        .is_err()
    {
        return Err(Fail::from("a read failed"));
    }
    Ok(bytes)
}
