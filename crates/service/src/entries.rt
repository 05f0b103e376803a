// Requests on the entries of a pack: ALLOC, DELET, RENAM, KEEP, APPND and LOOK.
ghost use Rattle.std.specs.Prelude.{◌≡◌, [], ◌∷◌};
ghost use Rattle.asking.specs.Keys.{key_of};
ghost use Rattle.directory.specs.Look.{look, look_outcome};
ghost use Rattle.creation.specs.Alloc.{alloc};
ghost use Rattle.directory.specs.Delet.{delet};
ghost use Rattle.directory.specs.Keep.{keep};
ghost use Rattle.directory.specs.Renam.{new_key, renam};
ghost use Rattle.appending.specs.Appnd.{appnd};

use crate::blocks::numbered;
use answers::Answer;
use directory::look::LookAnswer;
use pack::{Key, Segments};

#[unsafe(no_mangle)]
pub extern "C" fn abz_alloc(
    image: &mut [u8],
    caller: usize,
    name1: usize,
    name2: usize,
    extension: usize,
    uic: usize,
    protect: usize,
    segments: usize,
) -> Answer
    ensures code_value { result.code ≡ (alloc image.old (key_of caller name1 name2 extension uic) caller protect segments).code }
    ensures number_value { (result.number ∷ []) ≡ (alloc image.old (key_of caller name1 name2 extension uic) caller protect segments).numbers }
    ensures image_after { image.new ≡ (alloc image.old (key_of caller name1 name2 extension uic) caller protect segments).image }
{
    let key = asking::key_of(caller, name1, name2, extension, uic);
    numbered(creation::alloc::alloc(image, key, caller, protect, Segments(segments)))
}

#[unsafe(no_mangle)]
pub extern "C" fn abz_delet(
    image: &mut [u8],
    caller: usize,
    name1: usize,
    name2: usize,
    extension: usize,
    uic: usize,
) -> usize
    ensures value { result ≡ (delet image.old (key_of caller name1 name2 extension uic) caller).code }
    ensures image_after { image.new ≡ (delet image.old (key_of caller name1 name2 extension uic) caller).image }
{
    let key = asking::key_of(caller, name1, name2, extension, uic);
    answers::code(directory::delet::delet(image, key, caller))
}

#[unsafe(no_mangle)]
pub extern "C" fn abz_renam(
    image: &mut [u8],
    caller: usize,
    name1: usize,
    name2: usize,
    extension: usize,
    uic: usize,
    new_name1: usize,
    new_name2: usize,
    new_extension: usize,
    protect: usize,
) -> usize
    ensures value { result ≡ (renam image.old (key_of caller name1 name2 extension uic)
        (new_key (key_of caller name1 name2 extension uic) new_name1 new_name2 new_extension) protect caller).code }
    ensures image_after { image.new ≡ (renam image.old (key_of caller name1 name2 extension uic)
        (new_key (key_of caller name1 name2 extension uic) new_name1 new_name2 new_extension) protect caller).image }
{
    let old = asking::key_of(caller, name1, name2, extension, uic);
    let new = Key {
        name1: new_name1,
        name2: new_name2,
        extension: new_extension,
        uic: old.uic,
    };
    answers::code(directory::renam::renam(image, old, new, protect, caller))
}

#[unsafe(no_mangle)]
pub extern "C" fn abz_keep(
    image: &mut [u8],
    caller: usize,
    name1: usize,
    name2: usize,
    extension: usize,
    uic: usize,
) -> usize
    ensures value { result ≡ (keep image.old (key_of caller name1 name2 extension uic) caller).code }
    ensures image_after { image.new ≡ (keep image.old (key_of caller name1 name2 extension uic) caller).image }
{
    let key = asking::key_of(caller, name1, name2, extension, uic);
    answers::code(directory::keep::keep(image, key, caller))
}

#[unsafe(no_mangle)]
pub extern "C" fn abz_appnd(
    image: &mut [u8],
    caller: usize,
    name1: usize,
    name2: usize,
    extension: usize,
    uic: usize,
    second_name1: usize,
    second_name2: usize,
    second_extension: usize,
    second_uic: usize,
) -> usize
    ensures value { result ≡ (appnd image.old (key_of caller name1 name2 extension uic)
        (key_of caller second_name1 second_name2 second_extension second_uic) caller).code }
    ensures image_after { image.new ≡ (appnd image.old (key_of caller name1 name2 extension uic)
        (key_of caller second_name1 second_name2 second_extension second_uic) caller).image }
{
    let first = asking::key_of(caller, name1, name2, extension, uic);
    let second = asking::key_of(
        caller,
        second_name1,
        second_name2,
        second_extension,
        second_uic,
    );
    answers::code(appending::appnd::appnd(image, first, second, caller))
}

#[unsafe(no_mangle)]
pub extern "C" fn abz_look(
    image: &[u8],
    caller: usize,
    name1: usize,
    name2: usize,
    extension: usize,
    uic: usize,
) -> LookAnswer
    ensures { look_outcome image.now result ≡ look image.now (key_of caller name1 name2 extension uic) }
{
    let key = asking::key_of(caller, name1, name2, extension, uic);
    LookAnswer::from(directory::look::look(image, key))
}
