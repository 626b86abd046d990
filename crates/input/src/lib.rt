// Lines of an input of any size, one after another, out of one buffer. A line that the buffer can't hold is passed over to its end, and a part of a line
// that neither a newline nor the true end of the input closes is never answered. Or all of an input at once, as far as a buffer holds it.
// The buffer is lent by the program, as all memory is, and the part of it that is filled or unread goes beside it: what holds both would keep the program from the line.
#![tactic(auto)]

ghost use Rattle.std.specs.Prelude.{◌≡◌, None, false, IfOk, IfSome, ◌&&◌, ◌+◌, ◌-◌, ◌≤◌, ◌<◌, length, take};
ghost use Rattle.input.specs.Feed.{part_of, line_end, newline_in, line_to, last_line, too_long, failure, is_last, Within, Ready, NoLine, ReadOn, NextLine, left_waiting};

use std::io;
use std::io::{Print, Read};
use std::rt::{HostRuntime, Stderr, Stdin, Stdout};

// Room for a line of 262,144 bytes and its newline.
pub const ROOM: usize = 262_145;

// The three standard streams.
#[derive(Clone, Copy)]
pub struct Streams {
    pub input: Stdin,
    pub output: Stdout,
    pub errors: Stderr,
}

// A part of a buffer: buf[start..end].
#[derive(Clone, Copy)]
pub struct Span {
    pub start: usize,
    pub end: usize,
}

impl Span {
    // No bytes.
    pub const NONE: Span = Span { start: 0, end: 0 };

    // Its bytes.
    pub fn of(self, buf: &[u8]) -> &[u8]
        requires { Within (length buf.now) self }
        ensures { result.now ≡ part_of self buf.now }
    {
        &buf[self.start..self.end]
    }
}

// What was found: a line, one that is too long for the buffer, the input's end, or that the input can't be read.
#[derive(Clone, Copy)]
pub enum Found {
    Line(Span),
    TooLong,
    End,
    Failed,
}

// What was found, and what is read and not yet looked at.
#[derive(Clone, Copy)]
pub struct Feed {
    pub found: Found,
    pub unread: Span,
}

// What was found, and how many bytes of answers wait in a page then.
#[derive(Clone, Copy)]
pub struct Turn {
    pub feed: Feed,
    pub waiting: usize,
}

// The streams of a program.
pub fn standard_streams(rt: HostRuntime) -> Streams {
    Streams {
        input: rt.stdin(),
        output: rt.stdout(),
        errors: rt.stderr(),
    }
}

// The place of the first newline among some bytes.
fn newline(buf: &[u8], part: Span) -> Option<usize>
    requires { Within (length buf.now) part }
    ensures { result ≡ newline_in part.start part.end buf.now }
{
    match text::find(part.of(buf), b'\n') {
        Some(n) => Some(part.start + n),
        None => None,
    }
}

// Reads once into what is free behind the first `filled` bytes, and tells how many are filled then: at the input's end no more than before.
fn fill(streams: Streams, buf: &mut [u8], filled: usize) -> io::Result<usize>
    requires { filled ≤ length buf.old }
    ensures bound { IfOk result (λ n. (filled ≤ n) × (n ≤ length buf.old)) }
    ensures kept { take filled buf.new ≡ take filled buf.old }
{
    let mut input = streams.input;
    let got = input.read(&mut buf[filled..])?;
    Ok(filled + got)
}

// Here and in `read_on` the loop is a `while`: each read tells how far it came.
// Reads a file to its end, and tells how many bytes of the buffer it fills. Of a buffer that is full nobody knows whether it holds all, so a byte has to stay
// free.
pub fn read_all(streams: Streams, buf: &mut [u8]) -> io::Result<Option<usize>>
    ensures { IfOk result (λ held. IfSome held (λ n. n ≤ length buf.old)) }
{
    let mut filled = 0;
    while filled < buf.len() {
        let more = fill(streams, buf, filled)?;
        if more == filled {
            return Ok(Some(filled));
        }
        filled = more;
    }
    Ok(None)
}

// The line up to a newline at `end`.
fn line_to(start: usize, end: usize, filled: usize) -> Feed
    requires { end < filled }
    ensures { result ≡ line_to start end filled }
{
    Feed {
        found: Found::Line(Span { start, end }),
        unread: Span {
            start: end + 1,
            end: filled,
        },
    }
}

// What is left at the input's end is a line, if anything is left.
fn last_line(filled: usize) -> Feed
    ensures { result ≡ last_line filled }
{
    Feed {
        found: if filled == 0 {
            Found::End
        } else {
            Found::Line(Span {
                start: 0,
                end: filled,
            })
        },
        unread: Span {
            start: filled,
            end: filled,
        },
    }
}

// A line too long for the buffer, of which nothing is kept.
fn too_long(next: usize, filled: usize) -> Feed
    ensures { result ≡ too_long next filled }
{
    Feed {
        found: Found::TooLong,
        unread: Span {
            start: next,
            end: filled,
        },
    }
}

// A read that failed: of what was held nothing is answered.
fn failure() -> Feed
    ensures { result ≡ failure }
{
    Feed {
        found: Found::Failed,
        unread: Span::NONE,
    }
}

// Reads on to the next newline, past a line too long for the buffer.
fn skip_line(streams: Streams, buf: &mut [u8]) -> Feed
    ensures { Ready (length buf.old) result × NoLine buf.new result }
{
    for _ in 0..u64::MAX {
        let Ok(filled) = fill(streams, buf, 0) else {
            return failure();
        };
        if filled == 0 {
            return too_long(0, 0);
        }
        if let Some(end) = newline(
            buf,
            Span {
                start: 0,
                end: filled,
            },
        ) {
            return too_long(end + 1, filled);
        }
    }
    too_long(0, 0)
}

// The line that the first `held` bytes begin, none of them a newline: reads on until it is whole.
fn read_on(streams: Streams, buf: &mut [u8], held: usize) -> Feed
    requires { (held ≤ length buf.old) × (held ≡ line_end 0 held buf.old) }
    ensures { Ready (length buf.old) result × ReadOn (take held buf.old) buf.new result }
{
    let mut filled = held;
    while filled < buf.len() {
        let Ok(more) = fill(streams, buf, filled) else {
            return failure();
        };
        if more == filled {
            return last_line(filled);
        }
        if let Some(end) = newline(
            buf,
            Span {
                start: filled,
                end: more,
            },
        ) {
            return line_to(0, end, more);
        }
        filled = more;
    }
    skip_line(streams, buf)
}

// The next line: `end` is the place of the first newline among the unread bytes. Where there is none, what follows them is read from the file, and no answer may
// wait to be written then: who asks may wait for it before they send more. A last line needs no newline.
fn line_from(
    streams: Streams,
    buf: &mut [u8],
    unread: Span,
    end: Option<usize>,
    waiting: usize,
) -> Feed
    requires { Within (length buf.old) unread × (end ≡ newline_in unread.start unread.end buf.old) × (end ≡ None → waiting ≡ 0) }
    ensures { Ready (length buf.old) result × NextLine buf.old unread.start unread.end buf.new result }
{
    match end {
        Some(end) => line_to(unread.start, end, unread.end),
        None => {
            buf.copy_within(unread.start..unread.end, 0);
            read_on(streams, buf, unread.end - unread.start)
        }
    }
}

// The next line, where no answer waits.
pub fn next_line(streams: Streams, buf: &mut [u8], unread: Span) -> Feed
    requires { Within (length buf.old) unread }
    ensures { Ready (length buf.old) result × NextLine buf.old unread.start unread.end buf.new result }
{
    let end = newline(buf, unread);
    line_from(streams, buf, unread, end, 0)
}

// Writes a text to standard error. Where that fails there is nobody left to tell.
pub fn say(streams: Streams, text: &[u8]) {
    let _ = streams.errors.write_all(text);
}

// Writes a text to standard output, and tells whether it could be written: where it could not, standard error says so.
pub fn write(streams: Streams, text: &[u8]) -> bool {
    let written = streams.output.write_all(text).is_ok();
    if !written {
        say(streams, b"the output could not be written\n");
    }
    written
}

// Writes the answer to what was found to standard output, and tells whether there is more to read: not after the input's end, nor where the input can't be
// read or the output can't be written. Those two are said on standard error.
pub fn tell(streams: Streams, found: Found, text: &[u8]) -> bool
    ensures { (result && is_last found) ≡ false }
{
    if !write(streams, text) {
        return false;
    }
    match found {
        Found::Line(_) => true,
        Found::TooLong => true,
        Found::End => false,
        Found::Failed => {
            say(streams, b"the input could not be read\n");
            false
        }
    }
}

// The next line, as `next_line` finds it, where answers wait in the first bytes of a page: before anything is read they are written, and `longest` bytes have
// room behind those that still wait. None: they could not be written, and nothing was looked for.
pub fn read_line(
    streams: Streams,
    buf: &mut [u8],
    unread: Span,
    page: &[u8],
    waiting: usize,
    longest: usize,
) -> Option<Turn>
    requires { Within (length buf.old) unread × (waiting ≤ length page.now) × (longest ≤ length page.now) }
    ensures ready { IfSome result (λ t. Ready (length buf.old) t.feed × NextLine buf.old unread.start unread.end buf.new t.feed) }
    ensures waiting_value { IfSome result (λ t. (t.waiting ≡ left_waiting (length page.now) waiting longest (line_end unread.start unread.end buf.old) unread.end) × (t.waiting + longest ≤ length page.now)) }
{
    let end = newline(buf, unread);
    let left = if end.is_some() && longest <= page.len() - waiting {
        waiting
    } else {
        if !write(streams, &page[..waiting]) {
            return None;
        }
        0
    };
    let feed = line_from(streams, buf, unread, end, left);
    Some(Turn {
        feed,
        waiting: left,
    })
}

// Whether a line follows what was found. Where none does, the answers that wait in a page are written.
pub fn goes_on(streams: Streams, found: Found, page: &[u8], waiting: usize) -> bool
    requires { waiting ≤ length page.now }
    ensures { (result && is_last found) ≡ false }
{
    match found {
        Found::Line(_) => true,
        Found::TooLong => true,
        _ => tell(streams, found, &page[..waiting]),
    }
}
