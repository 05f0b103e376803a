// Readers of the parts of a specification, in the order in which they stand: device and file, group and user, switches.
#![tactic(auto)]

mod bracket;
mod front;
pub mod passing;
mod reading;
mod switch;

ghost use Rattle.std.specs.Prelude.{◌≡◌};
ghost use Rattle.command_grammar.specs.Keeps.{specification_keeps};
ghost use Rattle.command_grammar.specs.Reader.{specification, from};
ghost use Rattle.command_parts.specs.Made.{numbers_in};
ghost use Rattle.command_parts.specs.Numbers.{present_bits};
ghost use Rattle.command_parts.specs.Specified.{PartsAt};
ghost use Rattle.command_parts.specs.Passing.{passing_in};
ghost use Rattle.command_parts.specs.Passed.{passing};

use command_cursor::{Cursor, Misread};
use passing::Passed;
use reading::{DeviceNumbers, FileNumbers, UicNumbers};

// A specification in the paper's numbers, as a host sees them; those of absent parts are 0.
#[repr(C)]
#[derive(Clone, Copy)]
pub struct Numbers {
    pub present: usize,
    pub device: usize,
    pub unit: usize,
    pub name1: usize,
    pub name2: usize,
    pub extension: usize,
    pub group: usize,
    pub user: usize,
    pub switches: usize,
}

// The numbers of a specification whose switches are not yet counted, and where these begin.
#[derive(Clone, Copy)]
pub struct Parts {
    pub numbers: Numbers,
    pub next: Cursor,
}

fn present_bits(device: bool, name: bool, extension: bool, uic: bool) -> usize
    ensures { result ≡ present_bits device name extension uic }
{
    usize::from(device) + 2 * usize::from(name) + 4 * usize::from(extension) + 8 * usize::from(uic)
}

// "the parts (absent ones' numbers 0)"
fn numbers_of(
    device: Option<DeviceNumbers>,
    file: Option<FileNumbers>,
    uic: Option<UicNumbers>,
) -> Numbers
    ensures { result ≡ numbers_in device file uic }
{
    let DeviceNumbers { word, unit } = device.unwrap_or_default();
    let FileNumbers {
        name1,
        name2,
        extension,
    } = file.unwrap_or_default();
    let UicNumbers { group, user } = uic.unwrap_or_default();
    Numbers {
        present: present_bits(
            device.is_some(),
            file.is_some(),
            extension.is_some(),
            uic.is_some(),
        ),
        device: word,
        unit,
        name1,
        name2,
        extension: extension.unwrap_or(0),
        group,
        user,
        switches: 0,
    }
}

// Where the specification ends, and whether its numbers keep their bounds, for those who ask nothing else of it.
pub fn pass_parts(line: &[u8], c: Cursor) -> Result<Passed, Misread>
    ensures { passing_in result ≡ passing specification_keeps (from specification line.now c.at) }
{
    let device = front::pass_device(line, c);
    let head = front::pass_head(line, c, device)?;
    let uic = bracket::pass_uic(line, head)?;
    let next = switch::pass_switches(line, uic.next)?;
    // Where there is no device, no unit is over its bound.
    let unit_keeps = device.map_or(true, |device| device.keeps);
    Ok(Passed {
        next,
        keeps: unit_keeps & uic.keeps,
    })
}

// The parts of the specification at the cursor, of which it is known that it is in the grammar.
pub fn read_parts(line: &[u8], c: Cursor) -> Parts
    ensures { PartsAt line.now c.at result }
{
    let device = front::read_device(line, c);
    let file = front::read_file(line, device.next);
    let uic = bracket::read_uic(line, file.next);
    let numbers = numbers_of(device.part, file.part, uic.part);
    Parts {
        numbers,
        next: uic.next,
    }
}
