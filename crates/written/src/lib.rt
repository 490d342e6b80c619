// Texts that the reader makes, written into a lent buffer: decimal digits, generated names, and an assign's text in quotes.

#![tactic(auto)]

ghost use Rattle.std.specs.Prelude.{◌≡◌, ◌+◌, ◌%◌, ◌≤◌, length};
ghost use Rattle.std.proofs.lemmas.List.Edits.{sets};
ghost use Rattle.definition.specs.Text.{decimal, generated_name, escaped_quotes, quoted};
ghost use Rattle.written.specs.Written.{written, written_length, escape, in_quotes};

use words::trim;

// How many decimal digits n has. Counted and put by hand, since of the kit's libraries only `std` is used.
pub fn digit_count(n: u64) -> usize
    ensures value { result ≡ length (decimal n) }
    ensures upper_bound { result ≤ 20 }
{
    let mut m = n;
    for k in 0..20 {
        if m < 10 {
            return k + 1;
        }
        m /= 10;
    }
    20
}

// The decimal digits of n, the last one first, into as many places as they take.
pub fn put_digits(out: &mut [u8], n: u64)
    requires count_value { length out.old ≡ length (decimal n) }
    ensures { out.new ≡ decimal n }
{
    let mut m = n;
    for i in (0..out.len()).rev() {
        out[i] = b'0' + (m % 10) as u8;
        m /= 10;
    }
}

// `__id` and n. The length, or 0 where the buffer is too short: then nothing is written.
pub fn put_generated(out: &mut [u8], n: u32) -> usize
    ensures value { result ≡ written_length (generated_name n) out.old }
    ensures out_after { out.new ≡ written (generated_name n) out.old }
{
    let number = u64::from(n);
    let end = 4 + digit_count(number);
    if out.len() < end {
        return 0;
    }
    out[..4].copy_from_slice(b"__id");
    put_digits(&mut out[4..end], number);
    end
}

// How many quotation marks a text has: each gets a backslash before it.
fn marks(w: &[u8]) -> usize
    ensures w_value { result + length w.now ≡ length (escaped_quotes w.now) }
    ensures upper_bound { result ≤ length w.now }
{
    w.iter().filter(|b| **b == b'"').count()
}

// Not one with the escapes that are printed: those are cut off at the buffer's end, these are known to fit, and what stands behind them stays.
fn put_escape(out: &mut [u8], at: usize, b: u8) -> usize
    requires { at + length (escape b) ≤ length out.old }
    ensures value { result ≡ at + length (escape b) }
    ensures out_after { out.new ≡ sets out.old at (escape b) }
{
    if b == b'"' {
        out[at] = b'\\';
        out[at + 1] = b'"';
        return at + 2;
    }
    if b == b'\n' {
        out[at] = b' ';
        return at + 1;
    }
    out[at] = b;
    at + 1
}

fn put_escapes(out: &mut [u8], at: usize, w: &[u8]) -> usize
    requires { at + length (escaped_quotes w.now) ≤ length out.old }
    ensures value { result ≡ at + length (escaped_quotes w.now) }
    ensures out_after { out.new ≡ sets out.old at (escaped_quotes w.now) }
{
    let mut p = at;
    for b in w {
        p = put_escape(out, p, *b);
    }
    p
}

fn put_in_quotes(out: &mut [u8], w: &[u8]) -> usize
    ensures value { result ≡ written_length (in_quotes w.now) out.old }
    ensures out_after { out.new ≡ written (in_quotes w.now) out.old }
{
    if out.len() < 2 || out.len() - 2 < w.len() + marks(w) {
        return 0;
    }
    out[0] = b'"';
    let at = put_escapes(out, 1, w);
    out[at] = b'"';
    at + 1
}

// An assign's text: trimmed, in quotes. The length, or 0 where the buffer is too short: then nothing is written.
pub fn put_quoted(out: &mut [u8], v: &[u8]) -> usize
    ensures value { result ≡ written_length (quoted v.now) out.old }
    ensures out_after { out.new ≡ written (quoted v.now) out.old }
{
    let part = trim(v);
    let off = part.off;
    let end = off + part.len;
    put_in_quotes(out, &v[off..end])
}
