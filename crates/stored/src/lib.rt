// Stored calls, which the programs replay: eight numbers of eight bytes, each with its lowest byte first. The first is the operation, the
// others its arguments.
#![tactic(auto)]

ghost use Rattle.std.specs.Prelude.{◌≡◌, ◌≤◌, ◌%◌, ◌/◌, ◌^◌, min, IfOk, IfSome};
ghost use Rattle.stored.specs.Stored.{number, call, Takes};

use std::io;
use std::io::{ErrorKind, Read};

// The operation stays a number, since `read` promises it; each program has its own enum of operations.
#[derive(Clone, Copy)]
pub struct Record {
    pub operation: u64,
    pub a: u64,
    pub b: u64,
    pub c: u64,
    pub d: u64,
    pub e: u64,
    pub f: u64,
    pub g: u64,
}

// A place in a fixed array: eight sub-slices would be no plainer.
fn number(bytes: &[u8; 64], at: usize) -> u64
    requires { at ≤ 56 }
    ensures { result ≡ number bytes.now at }
{
    octets::little_at(bytes, at, 8)
}

// The call that 64 bytes hold.
pub fn read(bytes: &[u8; 64]) -> Record
    ensures { result ≡ call bytes.now }
{
    Record {
        operation: number(bytes, 0),
        a: number(bytes, 8),
        b: number(bytes, 16),
        c: number(bytes, 24),
        d: number(bytes, 32),
        e: number(bytes, 40),
        f: number(bytes, 48),
        g: number(bytes, 56),
    }
}

// The next call of an input; none where fewer than 64 bytes are left of it. Only of a call is anything promised: the library
// says nothing of a read that fails.
pub fn next<R: Read>(input: &mut R) -> io::Result<Option<Record>>
    ensures { IfOk result (λ o. IfSome o (λ r. Takes (R.remaining input.old) (R.remaining input.new) r)) }
{
    let mut bytes = [0u8; 64];
    match input.read_exact(&mut bytes) {
        Ok(()) => Ok(Some(read(&bytes))),
        Err(e) if e.kind() == ErrorKind::UnexpectedEof => Ok(None),
        Err(e) => Err(e),
    }
}

// The low 32 bits of an argument, and the high ones. The remainder stands, since `as` must lose nothing.
pub fn low(n: u64) -> u32
    ensures { result ≡ n % 2 ^ 32 }
{
    (n % 0x1_0000_0000) as u32
}

pub fn high(n: u64) -> u32
    ensures { result ≡ n / 2 ^ 32 }
{
    (n / 0x1_0000_0000) as u32
}

// An argument that counts places of a lent area, held at how many there are.
pub fn at_most(n: u64, most: usize) -> usize
    ensures { result ≡ min n most }
{
    n.min(most as u64) as usize
}
