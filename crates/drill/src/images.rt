// A vault on two lent images as one rack, opened anew for each call.
use field::ByteField;
use rack::Rack;
use rack_image::{ImageRack, check_images};
use rack_pair::{PairRack, join};
use refusal::Refusal;
use shape::Shape;
use vault::Vault;
use vault_calls::Answer;

// The image of a rack with 4 places, whose nodes are out and whose words are 0: 12 bytes a node.
pub(crate) fn cleared<const N: usize>() -> [u8; N] {
    let mut bytes = [0u8; N];
    for (number, record) in bytes.chunks_exact_mut(12).enumerate() {
        record[0] = 0xC5;
        record[1] = 0x9D;
        record[2] = (number % 256) as u8;
    }
    bytes
}

// Makes a call of a vault on two racks as one.
fn call_on_pair<A: Rack + Drop, B: Rack + Drop, C>(
    shape: Shape,
    first: A,
    second: B,
    call: C,
) -> Result<Answer, Refusal>
where
    C: FnOnce(&mut Vault<ByteField, PairRack<A, B>>) -> Result<Answer, Refusal>,
    requires { C.IsAlwaysCallable call }
{
    let pair = join(first, second).map_err(|back| back.why)?;
    let mut vault = Vault::open(shape, ByteField, pair).map_err(|back| back.why)?;
    call(&mut vault)
}

// Makes a call of a vault on the images of two rooms, each of 2 nodes with 4 places.
pub(crate) fn call_on_rooms<'a, C>(
    shape: Shape,
    first: &'a mut [u8],
    second: &'a mut [u8],
    call: C,
) -> Result<Answer, Refusal>
where
    C: FnOnce(
        &mut Vault<ByteField, PairRack<ImageRack<'a>, ImageRack<'a>>>,
    ) -> Result<Answer, Refusal>,
    requires { C.IsAlwaysCallable call }
{
    check_images(first, second, 2, 2, 4)?;
    call_on_pair(
        shape,
        ImageRack::over(first, 4),
        ImageRack::over(second, 4),
        call,
    )
}
