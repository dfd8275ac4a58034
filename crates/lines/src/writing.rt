// Numbers and lines, written to the start of a lent run of bytes. Each function returns how many bytes it wrote.
ghost use Rattle.std.specs.Prelude.{◌≡◌, [], ◌∷◌, ◌≤◌, length};
ghost use Rattle.std.proofs.lemmas.List.Edits.{sets};
ghost use Rattle.lines.specs.Printing.{decimal, field, fields, line};
ghost use Rattle.lines.specs.Replies.{reply_bytes, Written};

// How many digits a number has, by four at a step.
fn digit_count(n: u64) -> usize
    ensures { result ≡ length (decimal n) }
{
    if n < 10 {
        return 1;
    }
    if n < 100 {
        return 2;
    }
    if n < 1000 {
        return 3;
    }
    if n < 10000 {
        return 4;
    }
    4 + digit_count(n / 10000)
}

// A number's digits. They are written where they are to stand: `itoa`'s own buffer would have to be filled and copied for each of a round's names.
fn put_digits(out: &mut [u8], n: u64) -> usize
    requires { length (decimal n) ≤ length out.old }
    ensures { (result ≡ length (decimal n)) × (out.new ≡ sets out.old 0 (decimal n)) }
{
    if n < 100 && 10 <= n {
        out[0] = b'0' + (n / 10) as u8;
        out[1] = b'0' + (n % 10) as u8;
        return 2;
    }
    let count = digit_count(n);
    itoa::write_digits(n, out, count);
    count
}

// The same. One digit, as of an idle leaf, is written without a call.
#[inline(always)]
fn put_number(out: &mut [u8], n: u64) -> usize
    requires { length (decimal n) ≤ length out.old }
    ensures { (result ≡ length (decimal n)) × (out.new ≡ sets out.old 0 (decimal n)) }
{
    if n < 10 {
        out[0] = b'0' + n as u8;
        return 1;
    }
    put_digits(out, n)
}

// A space and a value.
#[inline(always)]
fn put_field(out: &mut [u8], n: u64) -> usize
    requires { length (field n) ≤ length out.old }
    ensures { (result ≡ length (field n)) × (out.new ≡ sets out.old 0 (field n)) }
{
    out[0] = b' ';
    1 + put_number(&mut out[1..], n)
}

// A space and a value for each of the values.
fn put_fields(out: &mut [u8], values: &[u16]) -> usize
    requires { length (fields values.now) ≤ length out.old }
    ensures { (result ≡ length (fields values.now)) × (out.new ≡ sets out.old 0 (fields values.now)) }
{
    let mut at: usize = 0;
    for n in values {
        at += put_field(&mut out[at..], u64::from(*n));
    }
    at
}

// A line: the answer number, the values, and a line feed.
fn put_line(out: &mut [u8], number: u64, values: &[u16]) -> usize
    requires { length (line number values.now) ≤ length out.old }
    ensures { (result ≡ length (line number values.now)) × (out.new ≡ sets out.old 0 (line number values.now)) }
{
    let mut at = put_number(out, number);
    at += put_fields(&mut out[at..], values);
    out[at] = b'\n';
    at + 1
}

// A reply of a number alone. It has at most twenty digits.
pub fn put_alone(out: &mut [u8], number: u64) -> usize
    requires { 21 ≤ length out.old }
    ensures { Written (line number []) out.old result out.new }
{
    put_line(out, number, &[])
}

// A reply of a number and one value, of at most twenty digits each: a ticket has 64 bits, and `put_line` takes entries of 16.
pub fn put_value(out: &mut [u8], number: u64, value: u64) -> usize
    requires { 42 ≤ length out.old }
    ensures { Written (line number (value ∷ [])) out.old result out.new }
{
    let mut at = put_number(out, number);
    at += put_field(&mut out[at..], value);
    out[at] = b'\n';
    at + 1
}

// A reply that is done, with its values.
pub fn put_done(out: &mut [u8], values: &[u16]) -> usize
    requires few { length values.now ≤ 4095 }
    requires room { reply_bytes ≤ length out.old }
    ensures { Written (line 0 values.now) out.old result out.new }
{
    put_line(out, 0, values)
}
