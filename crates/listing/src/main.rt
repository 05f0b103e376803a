// Lists the pack on standard input. A byte more than the longest image is read, so that a longer input is seen to be longer.
#![tactic(auto)]

use std::io;
use std::io::Write;

fn main(rt: HostRuntime) -> io::Result<()> {
    let mut image = [0u8; printing::LONGEST_IMAGE + 1];
    let mut text = [0u8; printing::LONGEST_TEXT];
    let read = reading::read_full(&mut rt.reader(), &mut image)?;
    let printed = printing::print_listing(&image[..read], &mut text);
    rt.stdout().write_all(&text[..printed])
}
