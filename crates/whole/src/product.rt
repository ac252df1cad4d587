// The upper half of a product of two numbers, which is as long as both together.
ghost use Rattle.std.specs.Prelude.{◌≡◌, ◌*◌, ◌/◌};

// By hand, with two digits each: a digit is a half of 32 bits, so that every product of two of them fits. The compiler knows this form, and makes one
// multiplication of it.
pub fn upper_half(a: u64, b: u64) -> u64
    ensures { result ≡ a * b / 18_446_744_073_709_551_616 }
{
    let a_low = a % 4_294_967_296;
    let a_high = a / 4_294_967_296;
    let b_low = b % 4_294_967_296;
    let b_high = b / 4_294_967_296;
    let low = a_low * b_low;
    let low_high = a_low * b_high;
    let high_low = a_high * b_low;
    let high = a_high * b_high;
    let middle = low / 4_294_967_296 + low_high % 4_294_967_296 + high_low % 4_294_967_296;
    high + low_high / 4_294_967_296 + high_low / 4_294_967_296 + middle / 4_294_967_296
}
