// The forms of a route and of a topic.
#![tactic(auto)]

ghost use Rattle.std.specs.Prelude.{◌≡◌, ◌&&◌, ◌≤◌, ◌+◌, leb, length};
ghost use Rattle.frame_forms.specs.Count.{one};
ghost use Rattle.frame_forms.specs.Working.{hex_in};
ghost use Rattle.frame_forms.specs.Forms.{is_hex, is_route, is_topic};

// Bytes of a route, its zero byte with them.
pub const ROUTE: usize = 37;

// 1 for a byte from low to high.
fn between(x: u8, low: u8, high: u8) -> u8
    ensures { (result ≡ one (leb low x && leb x high)) × (result ≤ 1) }
{
    u8::from(low <= x && x <= high)
}

// 1 for a lower-case hex digit.
fn hex(x: u8) -> u8
    ensures { (result ≡ one (is_hex x)) × (result ≤ 1) }
{
    between(x, b'0', b'9') + between(x, b'a', b'f')
}

// The hex digits in three stretches of 16 bytes of a route, which the compiler takes whole: the first
// two, and the one that ends in front of the zero byte. It has 12 bytes of the second once more.
// Stays a count in steps by index: `all` over the groups takes 12 times the instructions, `count` 7.
fn hex_digits(s: &[u8]) -> u8
    requires { length s.now ≡ 37 }
    ensures { result ≡ hex_in 0 16 s.now + hex_in 16 16 s.now + hex_in 20 16 s.now }
{
    let mut n: u8 = 0;
    for i in 0..16 {
        n += hex(s[i]) + hex(s[16 + i]) + hex(s[20 + i]);
    }
    n
}

// Whether s is a route with its zero byte. With the hyphens and the zero byte in place there are hex
// digits at all the other places exactly if 32 are counted, and 11 of them a second time.
pub fn is_route(s: &[u8]) -> bool
    ensures { result ≡ is_route s.now }
{
    if s.len() != ROUTE {
        return false;
    }
    if s[8] != b'-' || s[13] != b'-' || s[18] != b'-' || s[23] != b'-' || s[36] != 0 {
        return false;
    }
    hex_digits(s) == 43
}

// Whether s is a topic, without its zero byte.
#[tactic(auto, using(crate::proofs::Topics::no_zero_found), unfolding(crate::specs::Forms::is_topic))]
pub fn is_topic(s: &[u8]) -> bool
    ensures { result ≡ is_topic s.now }
{
    (1..=255).contains(&s.len()) && !s.contains(&0)
}
