// Formatted binary lines: reading and writing; they are ended as lines of text are.
ghost use Rattle.std.specs.Prelude.{◌≡◌, [], ◌∷◌};
ghost use Rattle.asking.specs.Keys.{key_of};
ghost use Rattle.binary.specs.BinaryReading.{binary_read};
ghost use Rattle.binary.specs.BinaryWriting.{binary_write};

use binary::binary_read::BinaryAnswer;
use lines::line_write::WriteAnswer;

#[unsafe(no_mangle)]
pub extern "C" fn abz_binary_read(
    image: &[u8],
    caller: usize,
    name1: usize,
    name2: usize,
    extension: usize,
    uic: usize,
    mode: usize,
    position: usize,
    coming: usize,
    sum: usize,
    buffer: &mut [u8],
) -> BinaryAnswer
    ensures code_value { result.code ≡ (binary_read image.now (key_of caller name1 name2 extension uic) caller mode position coming sum buffer.old).code }
    ensures sum_value { (result.count ∷ (result.status ∷ (result.position ∷ (result.coming ∷ (result.sum ∷ [])))))
        ≡ (binary_read image.now (key_of caller name1 name2 extension uic) caller mode position coming sum buffer.old).numbers }
    ensures buffer_after { buffer.new ≡ (binary_read image.now (key_of caller name1 name2 extension uic) caller mode position coming sum buffer.old).buffer }
{
    let key = asking::key_of(caller, name1, name2, extension, uic);
    BinaryAnswer::from(binary::binary_read::binary_read(
        image, key, caller, mode, position, coming, sum, buffer,
    ))
}

#[unsafe(no_mangle)]
pub extern "C" fn abz_binary_write(
    image: &mut [u8],
    caller: usize,
    name1: usize,
    name2: usize,
    extension: usize,
    uic: usize,
    content: &[u8],
    gather: &mut [u8],
    filled: usize,
) -> WriteAnswer
    ensures code_value { result.code ≡ (binary_write image.old (key_of caller name1 name2 extension uic) caller content.now gather.old filled).code }
    ensures filled_value { (result.count ∷ (result.status ∷ (result.filled ∷ [])))
        ≡ (binary_write image.old (key_of caller name1 name2 extension uic) caller content.now gather.old filled).numbers }
    ensures image_after { image.new ≡ (binary_write image.old (key_of caller name1 name2 extension uic) caller content.now gather.old filled).image }
    ensures gather_after { gather.new ≡ (binary_write image.old (key_of caller name1 name2 extension uic) caller content.now gather.old filled).buffer }
{
    let key = asking::key_of(caller, name1, name2, extension, uic);
    WriteAnswer::from(binary::binary_write::binary_write(
        image, key, caller, content, gather, filled,
    ))
}
