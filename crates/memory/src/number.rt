// Numbers in memory, least byte first.
ghost use Rattle.std.specs.Prelude.{◌≡◌, ◌+◌, ◌≤◌, ◌<◌, ◌^◌, length};
ghost use Rattle.memory.specs.Number.{number_at, with_number};

// The number in the bytes from a place on.
#[tactic(auto, using(crate::proofs::Numbers::reading))]
pub fn read<const WIDTH: usize>(memory: &[u8], at: usize) -> u64
    requires { (at + WIDTH ≤ length memory.now) × (WIDTH ≤ 8) }
    ensures { (result ≡ number_at WIDTH memory.now at) × (result < 256 ^ WIDTH) }
{
    let mut bytes = [0u8; 8];
    bytes[..WIDTH].copy_from_slice(&memory[at..at + WIDTH]);
    u64::from_le_bytes(bytes)
}

// Stores the low bytes of a number from a place on.
pub fn store<const WIDTH: usize>(memory: &mut [u8], at: usize, n: u64)
    requires { (at + WIDTH ≤ length memory.old) × (WIDTH ≤ 8) }
    ensures { memory.new ≡ with_number WIDTH memory.old at n }
{
    memory[at..at + WIDTH].copy_from_slice(&n.to_le_bytes()[..WIDTH]);
}
