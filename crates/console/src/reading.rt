ghost use Rattle.std.specs.Prelude.{◌≡◌, ◌≤◌, take, vec_len, IfOk, IfSome};

use anyhow::anyhow;
use std::alloc::Global;
use std::fs::File;
use std::io;
use std::io::Read;

/// The first bytes in the file of this name, at most so many.
pub fn read_file(rt: &HostRuntime, name: &str, most: u64) -> anyhow::Result<Vec<u8>>
    ensures { IfOk result (λ v. vec_len v ≤ most) }
{
    match open_and_read(rt, name, most) {
        Ok(bytes) => Ok(bytes),
        Err(e) => Err(anyhow!(format!(in rt.alloc(); "cannot read {name}: {e}")?)),
    }
}

fn open_and_read(rt: &HostRuntime, name: &str, most: u64) -> io::Result<Vec<u8>>
    ensures { IfOk result (λ v. vec_len v ≤ most) }
{
    let file = File::open(rt, name)?;
    read_at_most(rt.alloc(), file, most)
}

/// What there is to read, or the first bytes of it, if there are more than so many.
pub fn read_at_most<R: Read + Drop>(alloc: Global, from: R, most: u64) -> io::Result<Vec<u8>>
    ensures bytes { IfOk result (λ v. IfSome (R.remaining from) (λ bytes. v.items ≡ take most bytes)) }
    ensures few { IfOk result (λ v. vec_len v ≤ most) }
{
    let mut read = Vec::new(alloc);
    from.take(most).read_to_end(&mut read)?;
    read.truncate(most as usize);
    Ok(read)
}
