// Runs the six conversions on examples and on their worst inputs, a line for each call: the request, its input, the code in octal,
// and the number, or the characters that the buffer then holds.
#![tactic(auto)]

use answers::{Answer, Refusal};
use numerals::notation::{Decimal, Notation, Octal};
use std::io;
use std::io::{Stdout, Write};

// The largest number that a host can pass.
const LARGEST: usize = usize::MAX;

// A byte as itself where it prints, else as its three octal digits.
fn print_byte(out: &mut Stdout, byte: u8) -> io::Result<()> {
    match byte {
        b' '..=b'~' => out.write_all(&[byte]),
        _ => print!(out; "\\{byte:03o}"),
    }
}

fn print_characters(out: &mut Stdout, characters: &[u8]) -> io::Result<()> {
    print!(out; "\"")?;
    for byte in characters {
        print_byte(out, *byte)?;
    }
    print!(out; "\"")
}

// A line about characters that make a number.
fn to_number<F: FnOnce(&[u8]) -> Result<usize, Refusal>>(
    out: &mut Stdout,
    request: &str,
    characters: &[u8],
    convert: F,
) -> io::Result<()>
    requires { F.IsAlwaysCallable convert }
{
    print!(out; "{request} ")?;
    print_characters(out, characters)?;
    let Answer { code, number } = Answer::from(convert(characters));
    println!(out; ": {code:02o}, {number}")
}

// A line about a number that makes characters in a buffer, as it was lent and as it comes back.
fn to_characters<F: FnOnce(usize, &mut [u8]) -> Result<(), Refusal>>(
    out: &mut Stdout,
    request: &str,
    number: usize,
    buffer: &mut [u8],
    convert: F,
) -> io::Result<()>
    requires { F.IsAlwaysCallable convert }
{
    print!(out; "{request} {number} into ")?;
    print_characters(out, buffer)?;
    let code = answers::code(convert(number, buffer));
    print!(out; ": {code:02o}, ")?;
    print_characters(out, buffer)?;
    println!(out)
}

fn radpk(out: &mut Stdout, characters: &[u8]) -> io::Result<()> {
    to_number(out, "RADPK", characters, radix::radpk::radpk)
}

fn radup(out: &mut Stdout, word: usize, buffer: &mut [u8]) -> io::Result<()> {
    to_characters(out, "RADUP", word, buffer, radix::radup::radup)
}

fn d2bin(out: &mut Stdout, characters: &[u8]) -> io::Result<()> {
    to_number(out, "D2BIN", characters, Decimal::to_number)
}

fn bin2d(out: &mut Stdout, number: usize, buffer: &mut [u8]) -> io::Result<()> {
    to_characters(out, "BIN2D", number, buffer, Decimal::to_characters)
}

fn o2bin(out: &mut Stdout, characters: &[u8]) -> io::Result<()> {
    to_number(out, "O2BIN", characters, Octal::to_number)
}

fn bin2o(out: &mut Stdout, number: usize, buffer: &mut [u8]) -> io::Result<()> {
    to_characters(out, "BIN2O", number, buffer, Octal::to_characters)
}

fn examples(out: &mut Stdout) -> io::Result<()> {
    let mut three = [42u8; 3];
    let mut six = [42u8; 6];
    // The damaged copy of the handbook prints 053320 for this word.
    radpk(out, b"PR ")?;
    bin2o(out, 26320, &mut six)?;
    radup(out, 26320, &mut three)?;
    o2bin(out, b"053320")?;
    radup(out, 22224, &mut three)?;
    radpk(out, b"   ")?;
    radup(out, 0, &mut three)
}

// Buffers of another size, also where the input is not of the set: 41 comes first.
fn sizes_to_number(out: &mut Stdout) -> io::Result<()> {
    radpk(out, b"")?;
    radpk(out, b"ABCD")?;
    radpk(out, b"ab")?;
    d2bin(out, b"")?;
    d2bin(out, b" 123")?;
    d2bin(out, b"012345")?;
    o2bin(out, b"99999")
}

fn sizes_to_characters(out: &mut Stdout) -> io::Result<()> {
    let mut none: [u8; 0] = [];
    let mut four = [42u8; 4];
    let mut six = [42u8; 6];
    radup(out, 17680, &mut none)?;
    radup(out, 64000, &mut four)?;
    bin2d(out, 99999, &mut six)?;
    bin2o(out, 8, &mut four)
}

// Bytes that are not of the set: bit 7 set, lower case, NUL, and the neighbours of letters and digits.
fn characters(out: &mut Stdout) -> io::Result<()> {
    radpk(out, b"K\xc2 ")?;
    radpk(out, b"kb ")?;
    radpk(out, b"A\0Z")?;
    radpk(out, b"\x1f~\x7f")?;
    radpk(out, b"@AZ")?;
    radpk(out, b"AZ[")?;
    radpk(out, b"0/9")?;
    radpk(out, b"$.:")?;
    radpk(out, b"$.9")
}

// The same for digits, with blanks among them and a sign.
fn digits(out: &mut Stdout) -> io::Result<()> {
    d2bin(out, b"12 45")?;
    d2bin(out, b" 1234")?;
    d2bin(out, b"1234:")?;
    d2bin(out, b"/1234")?;
    d2bin(out, b"\xb12345")?;
    d2bin(out, b"-0001")?;
    o2bin(out, b"000008")?;
    o2bin(out, b"00 000")
}

// A word with 29 in each place, the codes beside 29, and the ends.
fn words(out: &mut Stdout) -> io::Result<()> {
    let mut three = [42u8; 3];
    radup(out, 29, &mut three)?;
    radup(out, 29 * 40, &mut three)?;
    radup(out, 29 * 1600, &mut three)?;
    radup(out, 28, &mut three)?;
    radup(out, 30, &mut three)?;
    radup(out, 64000, &mut three)?;
    radup(out, 65536, &mut three)?;
    radup(out, LARGEST, &mut three)?;
    radup(out, 63999, &mut three)
}

fn decimals(out: &mut Stdout) -> io::Result<()> {
    let mut five = [42u8; 5];
    d2bin(out, b"00000")?;
    d2bin(out, b"65535")?;
    d2bin(out, b"65536")?;
    d2bin(out, b"99999")?;
    bin2d(out, 65536, &mut five)?;
    bin2d(out, LARGEST, &mut five)?;
    bin2d(out, 65535, &mut five)?;
    bin2d(out, 7, &mut five)
}

fn octals(out: &mut Stdout) -> io::Result<()> {
    let mut six = [42u8; 6];
    o2bin(out, b"000000")?;
    o2bin(out, b"177777")?;
    o2bin(out, b"200000")?;
    o2bin(out, b"777777")?;
    bin2o(out, 65536, &mut six)?;
    bin2o(out, LARGEST, &mut six)?;
    bin2o(out, 65535, &mut six)?;
    bin2o(out, 8, &mut six)
}

fn main(rt: HostRuntime) -> io::Result<()> {
    let out = &mut rt.stdout();
    examples(out)?;
    sizes_to_number(out)?;
    sizes_to_characters(out)?;
    characters(out)?;
    digits(out)?;
    words(out)?;
    decimals(out)?;
    octals(out)
}
