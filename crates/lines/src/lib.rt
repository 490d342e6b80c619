// Event lines: lines, heads, escapes, the bounds of a stream's events, and parts of an event compared as they are read.

#![tactic(auto)]

ghost use Rattle.std.specs.Prelude.{◌≡◌, ℕ, true, false, Bool, ◌+◌, ◌-◌, ◌≤◌, ◌<◌, ◌==◌, length, take, drop, position, MatchOption};
ghost use Rattle.std.proofs.Math.Option.{none};
ghost use Rattle.definition.specs.Text.{same};
ghost use Rattle.definition.specs.Event.{legible};
ghost use Rattle.lines.specs.Lines.{line_length, has_head, event_length};
ghost use Rattle.lines.specs.Escapes.{scanned, IsFirst, placed, fitting, length_of};
ghost use Rattle.lines.specs.Blocks.{Tells, all, is_within_line, is_plain, is_text};
ghost use Rattle.lines.specs.Parts.{part, or_nothing};

// What follows a line's head: where it ends, and whether each of its bytes is known to be the text's.
#[derive(Clone, Copy)]
pub struct Tail {
    pub end: usize,
    pub plain: bool,
}

// Lengths, and no kinds: how many bytes are looked at together, on short lines and in texts.
const BLOCK: usize = 8;

const RUN: usize = 64;

#[tactic(auto, unfolding(crate::specs::Blocks::is_within_line))]
fn is_within_line(b: u8) -> bool
    ensures { result ≡ is_within_line b }
{
    b != b'\n'
}

// Whether a byte on a line is the text's byte: it is no backslash and below 128.
#[tactic(auto, unfolding(crate::specs::Blocks::is_plain, definition::specs::Text::is_allowed))]
fn is_plain(b: u8) -> bool
    ensures { result ≡ is_plain b }
{
    (b != b'\\') & (b < 128)
}

// Whether a byte is a text's byte on its line.
#[tactic(auto, unfolding(crate::specs::Blocks::is_text))]
fn is_text(b: u8) -> bool
    ensures { result ≡ is_text b }
{
    is_within_line(b) & is_plain(b)
}

// Whether a test holds of each byte of a block. The loop has no early end, so that the compiler compares many bytes at once.
#[inline(always)]
fn all_of<F: Fn(u8) -> bool>(block: &[u8], test: F) -> bool
    requires { F.IsAlwaysCallable test }
    ensures { (p : ℕ → Bool) → Tells p (λ b r. F.post test b r) → result ≡ all p block.now }
{
    let mut so = true;
    for b in block {
        so = so & test(*b);
    }
    so
}

// How many bytes stand before the first block of N of which the test does not hold, or before the last bytes, fewer than N.
fn passed<const N: usize, F: Fn(u8) -> bool>(raw: &[u8], test: F) -> usize
    requires size { 0 < N }
    requires callable { F.IsAlwaysCallable test }
    ensures within { result ≤ length raw.now }
    ensures passed { (p : ℕ → Bool) → Tells p (λ b r. F.post test b r) → all p (take result raw.now) ≡ true }
    ensures stopped { (p : ℕ → Bool) → Tells p (λ b r. F.post test b r) → result + N ≤ length raw.now → all p (part raw.now result N) ≡ false }
{
    let mut i = 0;
    while N <= raw.len() - i && all_of(&raw[i..i + N], &test) {
        i += N;
    }
    i
}

// Where the first byte 10 is.
fn first_end(raw: &[u8]) -> Option<usize>
    ensures { result ≡ position (λ b. b == 10) raw.now }
{
    raw.iter().position(|b| *b == b'\n')
}

// How many bytes stand before the first byte 10, or before the end.
fn line_length(raw: &[u8]) -> usize
    ensures { result ≡ line_length raw.now }
{
    let i = passed::<BLOCK, _>(raw, is_within_line);
    i + first_end(&raw[i..]).unwrap_or(raw.len() - i)
}

// What stands from a place on; nothing past the end.
fn after(raw: &[u8], from: usize) -> &[u8]
    ensures { result.now ≡ drop from raw.now }
{
    &raw[from.min(raw.len())..]
}

// Where the line that holds `from` ends: its byte 10, or the end.
pub fn line_end(raw: &[u8], from: usize) -> usize
    ensures { result ≡ from + line_length (drop from raw.now) }
{
    from + line_length(after(raw, from))
}

// The same, and whether every byte up to there is the text's. Where that is false it is not known: the last block is looked at as a whole.
pub fn tail_of(raw: &[u8], from: usize) -> Tail
    ensures at { result.end ≡ from + line_length (drop from raw.now) }
    ensures plain { result.plain ≡ true → all is_plain (part raw.now from (line_length (drop from raw.now))) ≡ true }
{
    let line = after(raw, from);
    let k = passed::<BLOCK, _>(line, is_text);
    let rest = &line[k..];
    Tail {
        end: from + k + line_length(rest),
        plain: BLOCK <= rest.len() && all_of(&rest[..BLOCK], is_plain),
    }
}

// Likewise, for a text, which may be long.
pub fn tail_of_text(raw: &[u8], from: usize) -> Tail
    ensures at { result.end ≡ from + line_length (drop from raw.now) }
    ensures plain { result.plain ≡ true → all is_plain (part raw.now from (line_length (drop from raw.now))) ≡ true }
{
    let k = passed::<RUN, _>(after(raw, from), is_text);
    tail_of(raw, from + k)
}

// Whether a line that begins with a head begins at `i`.
#[inline(always)]
pub fn begins(raw: &[u8], i: usize, head: &[u8]) -> bool
    requires { i ≤ length raw.now }
    ensures { result ≡ has_head head.now (drop i raw.now) }
{
    raw[i..].starts_with(head)
}

// The first byte that is read, and what is written after it; nothing at the end, or where what is written is out of form.
fn first(raw: &[u8]) -> Option<(u8, &[u8])>
    ensures { MatchOption result (0 < length raw.now → legible raw.now ≡ none) (λ p. IsFirst raw.now p.0 p.1.now) }
{
    let (b, rest) = raw.split_first()?;
    if *b >= 128 {
        return None;
    }
    if *b != b'\\' {
        return Some((*b, rest));
    }
    let (c, rest) = rest.split_first()?;
    match *c {
        b'n' => Some((b'\n', rest)),
        b'\\' => Some((b'\\', rest)),
        _ => None,
    }
}

// The unescaped length of what is written, if it is legible.
pub fn scan_line(raw: &[u8]) -> Option<usize>
    ensures { result ≡ scanned raw.now }
{
    let mut n = passed::<BLOCK, _>(raw, is_plain);
    let mut rest = &raw[n..];
    while let Some((_, left)) = first(rest) {
        n += 1;
        rest = left;
    }
    rest.is_empty().then_some(n)
}

// Writes the unescaped text at the buffer's start and returns its length; what is illegible or longer than the buffer is not written, and gives 0.
pub fn unescape(raw: &[u8], out: &mut [u8]) -> usize
    ensures value { result ≡ length_of (fitting (legible raw.now) (length out.old)) }
    ensures out_after { out.new ≡ placed 0 (fitting (legible raw.now) (length out.old)) out.old }
{
    let Some(len) = scan_line(raw) else {
        return 0;
    };
    if out.len() < len {
        return 0;
    }
    let mut n = 0;
    let mut rest = raw;
    while let Some((b, left)) = first(rest) {
        out[n] = b;
        n += 1;
        rest = left;
    }
    len
}

// Where the event that begins at `from` ends: at the next line that begins `event=`, or at the stream's end.
pub fn next_event(stream: &[u8], from: usize) -> usize
    ensures { result ≡ from + event_length (drop from stream.now) }
{
    let mut i = line_end(stream, from);
    while i < stream.len() {
        if begins(stream, i + 1, b"event=") {
            return i + 1;
        }
        i = line_end(stream, i + 1);
    }
    i
}

// The part of a slice that a description names, cut off at the slice's end.
pub fn part_of(raw: &[u8], at: usize, len: usize) -> &[u8]
    ensures { result.now ≡ part raw.now at len }
{
    let rest = after(raw, at);
    &rest[..len.min(rest.len())]
}

// Whether two texts are the same as they are read, unescaped; what is illegible reads as nothing.
pub fn same_text(a: &[u8], b: &[u8]) -> bool
    ensures { result ≡ same (or_nothing (legible a.now)) (or_nothing (legible b.now)) }
{
    let len = scan_line(a).unwrap_or(0);
    if len != scan_line(b).unwrap_or(0) {
        return false;
    }
    let mut one = a;
    let mut two = b;
    for _ in 0..len {
        let (Some((x, left)), Some((y, right))) = (first(one), first(two)) else {
            return false;
        };
        if x != y {
            return false;
        }
        one = left;
        two = right;
    }
    true
}
