// A map of a pack's blocks, lent for the check of an image: a small pack does not pay for the clearing of a large map.
ghost use Rattle.std.specs.Prelude.{◌≡◌};
ghost use Rattle.consistency.specs.Mapped.{Lent};

// An image of at most so many bytes has at most so many blocks, in whatever form.
pub const FEW_BYTES: usize = 8192;

pub const FEW_BLOCKS: usize = 64;

// Of at most so many bytes, at most so many.
pub const MANY_BYTES: usize = 524288;

pub const MANY_BLOCKS: usize = 1024;

// What is run on a map of a size that serves.
pub fn lend_map<R, F: FnOnce(&mut [u8]) -> R>(img: &[u8], run: F) -> R
    requires { (m : _) → Lent m.now img.now → F.pre run m }
    ensures { (m m2 : _) × Lent m.now img.now × F.post run m result m2 }
{
    if img.len() <= FEW_BYTES {
        let mut map = [0u8; FEW_BLOCKS];
        return run(&mut map);
    }
    if img.len() <= MANY_BYTES {
        let mut map = [0u8; MANY_BLOCKS];
        return run(&mut map);
    }
    let mut map = [0u8; pack::MOST_BLOCKS];
    run(&mut map)
}

// The same of what changes the image.
pub fn lend_map_mut<R, F: FnOnce(&mut [u8], &mut [u8]) -> R>(img: &mut [u8], run: F) -> R
    requires { (i m : _) → i.now ≡ img.old → Lent m.now img.old → F.pre run i m }
    ensures { (i m i2 m2 : _) × (i.now ≡ img.old) × Lent m.now img.old × F.post run i m result i2 m2 × (i2.now ≡ img.new) }
{
    if img.len() <= FEW_BYTES {
        let mut map = [0u8; FEW_BLOCKS];
        return run(img, &mut map);
    }
    if img.len() <= MANY_BYTES {
        let mut map = [0u8; MANY_BLOCKS];
        return run(img, &mut map);
    }
    let mut map = [0u8; pack::MOST_BLOCKS];
    run(img, &mut map)
}

// The same with a buffer that is written beside the image. It is lent on: of what a closure holds, its caller learns nothing.
pub fn lend_map_beside<R, F: FnOnce(&mut [u8], &mut [u8], &mut [u8]) -> R>(
    img: &mut [u8],
    buffer: &mut [u8],
    run: F,
) -> R
    requires { (i m b : _) → i.now ≡ img.old → Lent m.now img.old → b.now ≡ buffer.old → F.pre run i m b }
    ensures { (i m b i2 m2 b2 : _) × (i.now ≡ img.old) × Lent m.now img.old × (b.now ≡ buffer.old) × F.post run i m b result i2 m2 b2
        × (i2.now ≡ img.new) × (b2.now ≡ buffer.new) }
{
    if img.len() <= FEW_BYTES {
        let mut map = [0u8; FEW_BLOCKS];
        return run(img, &mut map, buffer);
    }
    if img.len() <= MANY_BYTES {
        let mut map = [0u8; MANY_BLOCKS];
        return run(img, &mut map, buffer);
    }
    let mut map = [0u8; pack::MOST_BLOCKS];
    run(img, &mut map, buffer)
}
