// Lines of text and numbers on standard output. What is written is compared with stored output: a
// contract cannot speak of it, and says that there is no answer. An error is that of the write that failed, and of nothing
// else; a call is lent nothing that it could change, so an error leaves nothing but what was written before it.
#![tactic(auto)]

ghost use Rattle.std.specs.Prelude.{◌≡◌, IfOk};

use refusals::{Reason, Refused};
use room::Shape;
use std::io;

pub fn text(rt: &impl Print, t: &[u8]) -> io::Result<()>
    ensures { IfOk result (λ done. done ≡ tt) }
{
    rt.write_all(t)
}

pub fn number(rt: &impl Print, n: usize) -> io::Result<()>
    ensures { IfOk result (λ done. done ≡ tt) }
{
    print!(rt; "{n}")
}

// A number with a space before it.
pub fn item(rt: &impl Print, n: usize) -> io::Result<()>
    ensures { IfOk result (λ done. done ≡ tt) }
{
    print!(rt; " {n}")
}

// "NAME (n,k)" of a full room, "NAME (n,k,m)" of any other.
pub fn question(rt: &impl Print, name: &[u8], shape: Shape) -> io::Result<()>
    ensures { IfOk result (λ done. done ≡ tt) }
{
    text(rt, name)?;
    print!(rt; " {shape}")
}

// "refused NUMBER" with a space before it, route and hop where they are not zero, and the earlier hop where one is named.
pub fn refused_item(rt: &impl Print, refused: Refused) -> io::Result<()>
    ensures { IfOk result (λ done. done ≡ tt) }
{
    print!(rt; " {refused}")
}

// "= refused NUMBER", with the places that the refusal names.
pub fn refused(rt: &impl Print, refused: Refused) -> io::Result<()>
    ensures { IfOk result (λ done. done ≡ tt) }
{
    println!(rt; " = {refused}")
}

// "= VALUE", or the refusal.
pub fn answer(rt: &impl Print, x: Result<usize, Reason>) -> io::Result<()>
    ensures { IfOk result (λ done. done ≡ tt) }
{
    match x {
        Ok(value) => println!(rt; " = {value}"),
        Err(reason) => println!(rt; " = {reason}"),
    }
}

// A number as two hex digits, or as many as it takes, with a space before it.
pub fn hex(rt: &impl Print, n: usize) -> io::Result<()>
    ensures { IfOk result (λ done. done ≡ tt) }
{
    print!(rt; " {n:02x}")
}

// The bytes of a slice as hex, with a space before them; "-" where there are none.
pub fn bytes(rt: &impl Print, b: &[u8]) -> io::Result<()>
    ensures { IfOk result (λ done. done ≡ tt) }
{
    text(rt, b" ")?;
    if b.is_empty() {
        text(rt, b"-")?;
    }
    for &byte in b {
        print!(rt; "{byte:02x}")?;
    }
    Ok(())
}

pub fn end(rt: &impl Print) -> io::Result<()>
    ensures { IfOk result (λ done. done ≡ tt) }
{
    text(rt, b"\n")
}

// The first numbers of nine, each with a space before it.
pub fn items(rt: &impl Print, numbers: [usize; 9], count: usize) -> io::Result<()>
    ensures { IfOk result (λ done. done ≡ tt) }
{
    for &number in numbers.iter().take(count) {
        item(rt, number)?;
    }
    Ok(())
}

// Every number of a slice, with a space before it.
pub fn all(rt: &impl Print, numbers: &[usize]) -> io::Result<()>
    ensures { IfOk result (λ done. done ≡ tt) }
{
    for &number in numbers {
        item(rt, number)?;
    }
    Ok(())
}
