// Lines of text: reading, writing and ending.
ghost use Rattle.std.specs.Prelude.{◌≡◌, [], ◌∷◌};
ghost use Rattle.asking.specs.Keys.{key_of};
ghost use Rattle.lines.specs.LineReading.{line_read};
ghost use Rattle.lines.specs.LineWriting.{line_write, line_end};

use lines::line_read::ReadAnswer;
use lines::line_write::WriteAnswer;

#[unsafe(no_mangle)]
pub extern "C" fn abz_line_read(
    image: &[u8],
    caller: usize,
    name1: usize,
    name2: usize,
    extension: usize,
    uic: usize,
    mode: usize,
    position: usize,
    buffer: &mut [u8],
) -> ReadAnswer
    ensures code_value { result.code ≡ (line_read image.now (key_of caller name1 name2 extension uic) caller mode position buffer.old).code }
    ensures position_value { (result.count ∷ (result.status ∷ (result.position ∷ [])))
        ≡ (line_read image.now (key_of caller name1 name2 extension uic) caller mode position buffer.old).numbers }
    ensures buffer_after { buffer.new ≡ (line_read image.now (key_of caller name1 name2 extension uic) caller mode position buffer.old).buffer }
{
    let key = asking::key_of(caller, name1, name2, extension, uic);
    ReadAnswer::from(lines::line_read::line_read(image, key, caller, mode, position, buffer))
}

#[unsafe(no_mangle)]
pub extern "C" fn abz_line_write(
    image: &mut [u8],
    caller: usize,
    name1: usize,
    name2: usize,
    extension: usize,
    uic: usize,
    mode: usize,
    text: &[u8],
    gather: &mut [u8],
    filled: usize,
) -> WriteAnswer
    ensures code_value { result.code ≡ (line_write image.old (key_of caller name1 name2 extension uic) caller mode text.now gather.old filled).code }
    ensures filled_value { (result.count ∷ (result.status ∷ (result.filled ∷ [])))
        ≡ (line_write image.old (key_of caller name1 name2 extension uic) caller mode text.now gather.old filled).numbers }
    ensures image_after { image.new ≡ (line_write image.old (key_of caller name1 name2 extension uic) caller mode text.now gather.old filled).image }
    ensures gather_after { gather.new ≡ (line_write image.old (key_of caller name1 name2 extension uic) caller mode text.now gather.old filled).buffer }
{
    let key = asking::key_of(caller, name1, name2, extension, uic);
    WriteAnswer::from(lines::line_write::line_write(image, key, caller, mode, text, gather, filled))
}

#[unsafe(no_mangle)]
pub extern "C" fn abz_line_end(
    image: &mut [u8],
    caller: usize,
    name1: usize,
    name2: usize,
    extension: usize,
    uic: usize,
    gather: &mut [u8],
    filled: usize,
) -> usize
    ensures value { result ≡ (line_end image.old (key_of caller name1 name2 extension uic) caller gather.old filled).code }
    ensures image_after { image.new ≡ (line_end image.old (key_of caller name1 name2 extension uic) caller gather.old filled).image }
    ensures gather_after { gather.new ≡ (line_end image.old (key_of caller name1 name2 extension uic) caller gather.old filled).buffer }
{
    let key = asking::key_of(caller, name1, name2, extension, uic);
    answers::code(lines::line_write::line_end(image, key, caller, gather, filled))
}
