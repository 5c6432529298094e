//! Sources and sinks: what they pass, how often they call their ends, and the bytes that are held between.
mod usage;

ghost use Rattle.std.specs.Prelude.{◌≡◌, ◌≤◌, ◌++◌, ℕ, List, length, take, IfOk, IfSome};

use byte_ends::{Filled, HeldBytes, Pieces, Reading, Sink, Source, Writing, read_some, write_text};
use linked_list_allocator::LocalHeap;
use std::alloc::{Allocator, Global};
use std::io;
use std::io::{ErrorKind, Read, Write};
use std::process::Abort;
use std::test::Fail;

/// A text through a fresh sink: its contents are known from the start.
fn through(alloc: Global, text: &[u8]) -> Option<Vec<u8>>
    ensures { IfSome result (λ v. v.items ≡ text.now) }
{
    let mut sink = Writing::new(Vec::new(alloc));
    if !write_text(&mut sink, text) {
        return None;
    }
    Some(sink.into_inner())
}

/// The first bytes of a fresh source: what it has left is known from the start.
fn front_of(bytes: &[u8], most: usize, buf: &mut [u8]) -> Option<usize>
    ensures { IfSome result (λ n. (rest : List ℕ) × (bytes.now ≡ take n buf.new ++ rest)) }
{
    let mut source = Pieces::new(bytes, most);
    read_some(&mut source, buf)
}

/// The first bytes of a fresh source out of a reader.
fn front_of_reader(bytes: &[u8], buf: &mut [u8]) -> Option<usize>
    ensures { IfSome result (λ n. (rest : List ℕ) × (bytes.now ≡ take n buf.new ++ rest)) }
{
    let mut source = Reading::new(bytes);
    read_some(&mut source, buf)
}

/// A reader and writer that is at fault at its second call, and takes nothing at
/// its third.
#[derive(Drop)]
struct Faulty {
    calls: u32,
    kind: ErrorKind,
}

impl Faulty {
    fn call(&mut self, len: usize) -> io::Result<usize>
        ensures { IfOk result (λ n. n ≤ len) }
    {
        self.calls = self.calls.saturating_add(1);
        if self.calls == 2 {
            return Err(io::Error::from(self.kind));
        }
        if self.calls == 3 {
            return Ok(0);
        }
        Ok(len.min(2))
    }
}

impl Write for Faulty {
    fn write(&mut self, buf: &[u8]) -> io::Result<usize> {
        self.call(buf.len())
    }

    fn flush(&mut self) -> io::Result<()> {
        Ok(())
    }
}

impl Read for Faulty {
    fn read(&mut self, buf: &mut [u8]) -> io::Result<usize> {
        self.call(buf.len())
    }
}

/// What fresh sources of some bytes give into a buffer of 4, in reads of so many bytes at most.
const FRONTS: &[(&[u8], usize, usize)] = &[(b"abcdef", 3, 3), (b"abcdef", 0, 1), (b"", 3, 0)];

#[test]
fn passes_bytes(rt: HostRuntime) {
    let text = through(rt.alloc(), b"5 clock\n").expect(&rt, "a text is taken");
    assert!(rt; text.as_slice() == b"5 clock\n".as_slice());
    let mut buf = [0u8; 4];
    for (bytes, most, size) in FRONTS {
        assert!(rt; front_of(bytes, *most, &mut buf) == Some(*size), "{most}");
    }
    assert!(rt; front_of_reader(b"abcdef", &mut buf) == Some(4));
}

/// What the calls of a faulty end move, and none where it is at fault.
const MOVED: &[Option<usize>] = &[Some(2), None, Some(0)];

/// Whether a call moved so many bytes, or had this fault.
fn is_told(answer: io::Result<usize>, moved: Option<usize>, kind: ErrorKind) -> bool {
    match answer {
        Ok(size) => moved == Some(size),
        Err(fault) => moved.is_none() && fault.kind() == kind,
    }
}

/// Reads three times through a wrapper.
fn reads_once(rt: &impl Abort, kind: ErrorKind) {
    let mut source = Reading::new(Faulty { calls: 0, kind });
    let mut buf = [0u8; 4];
    for moved in MOVED {
        assert!(rt; is_told(source.read(&mut buf), *moved, kind));
    }
    assert!(rt; source.into_inner().calls == 3);
}

/// Writes three times through a wrapper.
fn writes_once(rt: &impl Abort, kind: ErrorKind) {
    let mut sink = Writing::new(Faulty { calls: 0, kind });
    for moved in MOVED {
        assert!(rt; is_told(sink.write(b"ab"), *moved, kind));
    }
    assert!(rt; sink.into_inner().calls == 3);
}

/// A wrapper calls its end once at each of its calls, also after a fault, and tells what it answered.
#[test]
fn wrappers_call_their_ends_once(rt: HostRuntime) {
    for kind in [ErrorKind::Interrupted, ErrorKind::Other] {
        reads_once(&rt, kind);
        writes_once(&rt, kind);
    }
}

/// What a second try moves where the end is at fault at its second call, and how often the end is called in both tries.
const SECOND_TRIES: &[(ErrorKind, Option<usize>, u32)] = &[
    (ErrorKind::Interrupted, Some(0), 3),
    (ErrorKind::Other, None, 2),
];

/// Tries to read twice.
fn reads_again(rt: &impl Abort, kind: ErrorKind, second: Option<usize>, calls: u32) {
    let mut source = Reading::new(Faulty { calls: 0, kind });
    let mut buf = [0u8; 4];
    for moved in [Some(2), second] {
        assert!(rt; read_some(&mut source, &mut buf) == moved);
    }
    assert!(rt; source.into_inner().calls == calls);
}

/// Tries to write a text that one call takes, and then one that a second call does not.
fn writes_again(rt: &impl Abort, kind: ErrorKind, calls: u32) {
    let mut sink = Writing::new(Faulty { calls: 0, kind });
    assert!(rt; write_text(&mut sink, b"ab"));
    assert!(rt; !write_text(&mut sink, b"abcd"));
    assert!(rt; sink.into_inner().calls == calls);
}

/// A try is over with the first call that was not interrupted.
#[test]
fn tries_an_interrupt_again(rt: HostRuntime) {
    for (kind, second, calls) in SECOND_TRIES {
        reads_again(&rt, *kind, *second, *calls);
        writes_again(&rt, *kind, *calls);
    }
}

/// The size of the line in front of some bytes, with its newline.
fn front_size(bytes: &[u8]) -> Option<usize>
    ensures { IfSome result (λ n. n ≤ length bytes.now) }
{
    let end = bytes.iter().position(|byte| *byte == b'\n')?;
    Some(end + 1)
}

/// Takes the line in front of what is held, and adds its size, or else holds more; answers whether none is left.
fn take_or_fill(
    source: &mut Pieces<'_>,
    held: &mut HeldBytes<Global>,
    sizes: &mut Vec<usize>,
) -> Result<bool, Fail> {
    if let Some(size) = front_size(held.bytes()) {
        sizes.push(size)?;
        held.skip(size);
        return Ok(false);
    }
    Ok(held.bytes().len() < 64 && held.fill(source) == Filled::End)
}

/// Takes the lines of a source in at most 40 steps, and adds the size of each.
fn take_all(
    source: &mut Pieces<'_>,
    held: &mut HeldBytes<Global>,
    sizes: &mut Vec<usize>,
) -> Result<(), Fail> {
    for _ in 0..40u32 {
        if take_or_fill(source, held, sizes)? {
            break;
        }
    }
    Ok(())
}

/// Holds a text of two lines in pieces of at most so many bytes, and takes both.
fn holds(rt: &(impl AllocGlobal + Abort), most: usize) -> Result<(), Fail> {
    let mut source = Pieces::new(b"start 1\nclock 22\n", most);
    let mut held = HeldBytes::new(rt.alloc())?;
    let mut sizes = Vec::new(rt.alloc());
    take_all(&mut source, &mut held, &mut sizes)?;
    assert!(rt; sizes.as_slice() == [8, 9].as_slice());
    assert!(rt; held.bytes().is_empty());
    Ok(())
}

#[test]
fn holds_pieces(rt: HostRuntime) -> Result<(), Fail> {
    for most in 1..20usize {
        holds(&rt, most)?;
    }
    Ok(())
}

/// Whether there is memory to hold a piece.
fn is_room(alloc: impl Allocator) -> bool {
    HeldBytes::new(alloc).is_ok()
}

#[test]
fn tells_want_of_memory(rt: HostRuntime) -> Result<(), Fail> {
    let narrow = LocalHeap::new(rt.alloc(), 1_000)?;
    assert!(rt; !is_room(&narrow));
    let wide = LocalHeap::new(rt.alloc(), 100_000)?;
    assert!(rt; is_room(&wide));
    Ok(())
}
