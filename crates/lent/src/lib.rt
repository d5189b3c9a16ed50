// An answer whose bytes go to a lent buffer.
#![tactic(auto)]

ghost use Rattle.lent.specs.Lent.{writes, LentPromise};

use refusal::Refusal;

// The bytes fill the start of the lent buffer; 14 where it is shorter. The answer is the length written.
pub fn fill(buffer: &mut [u8], bytes: &[u8]) -> Result<usize, Refusal>
    ensures { LentPromise (writes bytes.now) buffer.old buffer.new result }
{
    let size = bytes.len();
    if buffer.len() < size {
        return Err(Refusal::of_lent(14));
    }
    buffer[..size].copy_from_slice(bytes);
    Ok(size)
}
