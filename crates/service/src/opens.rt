// Opens and closes: OPENO, OPENI, OPENU, OPENE and CLOSE.
ghost use Rattle.std.specs.Prelude.{◌≡◌};
ghost use Rattle.asking.specs.Keys.{key_of};
ghost use Rattle.creation.specs.Openo.{openo};
ghost use Rattle.opening.specs.declared.Opening.TheVariants.{Input, Update, Extension};
ghost use Rattle.opening.specs.Open.{opened};
ghost use Rattle.opening.specs.Close.{close};

use opening::Opening;

#[unsafe(no_mangle)]
pub extern "C" fn abz_openo(
    image: &mut [u8],
    caller: usize,
    name1: usize,
    name2: usize,
    extension: usize,
    uic: usize,
    protect: usize,
) -> usize
    ensures value { result ≡ (openo image.old (key_of caller name1 name2 extension uic) caller protect).code }
    ensures image_after { image.new ≡ (openo image.old (key_of caller name1 name2 extension uic) caller protect).image }
{
    answers::code(creation::openo::openo(
        image,
        asking::key_of(caller, name1, name2, extension, uic),
        caller,
        protect,
    ))
}

#[unsafe(no_mangle)]
pub extern "C" fn abz_openi(
    image: &mut [u8],
    caller: usize,
    name1: usize,
    name2: usize,
    extension: usize,
    uic: usize,
) -> usize
    ensures value { result ≡ (opened Input image.old (key_of caller name1 name2 extension uic) caller).code }
    ensures image_after { image.new ≡ (opened Input image.old (key_of caller name1 name2 extension uic) caller).image }
{
    answers::code(opening::opens::open(
        image,
        Opening::Input,
        asking::key_of(caller, name1, name2, extension, uic),
        caller,
    ))
}

#[unsafe(no_mangle)]
pub extern "C" fn abz_openu(
    image: &mut [u8],
    caller: usize,
    name1: usize,
    name2: usize,
    extension: usize,
    uic: usize,
) -> usize
    ensures value { result ≡ (opened Update image.old (key_of caller name1 name2 extension uic) caller).code }
    ensures image_after { image.new ≡ (opened Update image.old (key_of caller name1 name2 extension uic) caller).image }
{
    answers::code(opening::opens::open(
        image,
        Opening::Update,
        asking::key_of(caller, name1, name2, extension, uic),
        caller,
    ))
}

#[unsafe(no_mangle)]
pub extern "C" fn abz_opene(
    image: &mut [u8],
    caller: usize,
    name1: usize,
    name2: usize,
    extension: usize,
    uic: usize,
) -> usize
    ensures value { result ≡ (opened Extension image.old (key_of caller name1 name2 extension uic) caller).code }
    ensures image_after { image.new ≡ (opened Extension image.old (key_of caller name1 name2 extension uic) caller).image }
{
    answers::code(opening::opens::open(
        image,
        Opening::Extension,
        asking::key_of(caller, name1, name2, extension, uic),
        caller,
    ))
}

#[unsafe(no_mangle)]
pub extern "C" fn abz_close(
    image: &mut [u8],
    caller: usize,
    name1: usize,
    name2: usize,
    extension: usize,
    uic: usize,
    mode: usize,
) -> usize
    ensures value { result ≡ (close image.old (key_of caller name1 name2 extension uic) mode).code }
    ensures image_after { image.new ≡ (close image.old (key_of caller name1 name2 extension uic) mode).image }
{
    answers::code(opening::close::close(
        image,
        asking::key_of(caller, name1, name2, extension, uic),
        mode,
    ))
}
