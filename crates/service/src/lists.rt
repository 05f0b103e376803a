// Many requests in one call.
ghost use Rattle.std.specs.Prelude.{◌≡◌};
ghost use Rattle.many.specs.Many.{many};

#[unsafe(no_mangle)]
pub extern "C" fn abz_many(image: &mut [u8], records: &[u8], answers: &mut [u8]) -> usize
    ensures value { result ≡ (many image.old records.now answers.old).code }
    ensures image_after { image.new ≡ (many image.old records.now answers.old).image }
    ensures answers_after { answers.new ≡ (many image.old records.now answers.old).buffer }
{
    answers::code(many::serve(image, records, answers))
}
