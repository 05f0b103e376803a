// Reports on the image on standard input. A byte more than the longest image is read, so that a longer input is seen to be longer.
#![tactic(auto)]

use printing::reports::LONGEST_REPORT;
use std::io;
use std::io::Write;

fn main(rt: HostRuntime) -> io::Result<()> {
    let mut image = [0u8; printing::LONGEST_IMAGE + 1];
    let mut text = [0u8; LONGEST_REPORT];
    let read = reading::read_full(&mut rt.reader(), &mut image)?;
    let printed = printing::reports::print_report(&image[..read], &mut text);
    rt.stdout().write_all(&text[..printed])
}
