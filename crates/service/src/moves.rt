// Packs moved between forms.
ghost use Rattle.moving.specs.declared.Way.TheVariants.{Up, Down};
ghost use Rattle.moving.specs.Moved.{Bytes};
ghost use Rattle.moving.specs.Moving.{Moving};

#[unsafe(no_mangle)]
pub extern "C" fn abz_to_form2(source: &[u8], target: &mut [u8]) -> usize
    ensures moving { Moving Up source.now target.old result target.new }
    ensures bytes { Bytes source.now × Bytes target.new }
{
    answers::code(moving::to_form2(source, target))
}

#[unsafe(no_mangle)]
pub extern "C" fn abz_to_form1(source: &[u8], target: &mut [u8]) -> usize
    ensures moving { Moving Down source.now target.old result target.new }
    ensures bytes { Bytes source.now × Bytes target.new }
{
    answers::code(moving::to_form1(source, target))
}
