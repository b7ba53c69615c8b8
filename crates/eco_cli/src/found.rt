//! What is printed of nets that were judged.

ghost use Rattle.std.specs.Prelude.{◌≡◌, ◌<◌, ◌++◌, All, IfOk, OnOk, codes, decimal, length};
ghost use Rattle.std.specs.List.{flat_map};
ghost use Rattle.eco_meaning.specs.Circuit.{names};
ghost use Rattle.eco_cli.specs.Found.{found_text, input_line, net_line, open_line};

use crate::printing::{add_bits, add_line};
use eco_locate::{Excluding, Located, Open, Ranked, excluded_nets};
use eco_netlist::{Netlist, OutOfMemory};
use itoa::Buffer;
use std::alloc::Global;

/// What is printed of the nets of this netlist.
pub(crate) fn found_text(
    alloc: Global,
    f: &Netlist,
    ranked: &[Ranked],
    located: &Located,
) -> Result<Vec<u8>, OutOfMemory>
    requires within { All (λ r. r.net.0 < length (names f.now)) ranked.now }
    requires open_within { All (λ o. o.net.0 < length (names f.now)) located.now.over.items }
    ensures { IfOk result (λ text. text.items ≡ found_text f.now ranked.now located.now) }
{
    let excluded = excluded_nets(alloc, located.excluding.as_slice())?;
    let count = excluded.len() as u64;
    drop(excluded);
    let mut text = Vec::from_slice(alloc, b"located\n")?;
    add_line(&mut text, b"single ", ranked.len() as u64)?;
    add_nets(&mut text, f, ranked)?;
    add_open(&mut text, f, located.over.as_slice())?;
    add_line(&mut text, b"excluded ", count)?;
    add_inputs(&mut text, located.excluding.as_slice())?;
    Ok(text)
}

/// Adds the lines of nets that can be cut.
fn add_nets(text: &mut Vec<u8>, f: &Netlist, nets: &[Ranked]) -> Result<(), OutOfMemory>
    requires within { All (λ r. r.net.0 < length (names f.now)) nets.now }
    ensures { OnOk result (text.new.items ≡ text.old.items ++ flat_map (net_line (names f.now)) nets.now) }
{
    for net in nets {
        add_net(text, f, *net)?;
    }
    Ok(())
}

fn add_net(text: &mut Vec<u8>, f: &Netlist, ranked: Ranked) -> Result<(), OutOfMemory>
    requires within { ranked.net.0 < length (names f.now) }
    ensures { OnOk result (text.new.items ≡ text.old.items ++ net_line (names f.now) ranked) }
{
    text.extend_from_slice(b"net ")?;
    text.extend_from_slice(f.name_of(ranked.net).bytes())?;
    add_number(text, ranked.cone)?;
    add_line(text, b" ", ranked.readers)?;
    Ok(())
}

/// Adds a blank and this number.
fn add_number(text: &mut Vec<u8>, number: u64) -> Result<(), OutOfMemory>
    ensures { OnOk result (text.new.items ≡ text.old.items ++ codes " " ++ decimal number) }
{
    let mut buffer = Buffer::new();
    text.extend_from_slice(b" ")?;
    text.extend_from_slice(buffer.format(number).as_bytes())?;
    Ok(())
}

/// Adds the lines of nets that are left open.
fn add_open(text: &mut Vec<u8>, f: &Netlist, nets: &[Open]) -> Result<(), OutOfMemory>
    requires within { All (λ o. o.net.0 < length (names f.now)) nets.now }
    ensures { OnOk result (text.new.items ≡ text.old.items ++ flat_map (open_line (names f.now)) nets.now) }
{
    for net in nets {
        add_open_net(text, f, net)?;
    }
    Ok(())
}

fn add_open_net(text: &mut Vec<u8>, f: &Netlist, net: &Open) -> Result<(), OutOfMemory>
    requires within { net.now.net.0 < length (names f.now) }
    ensures { OnOk result (text.new.items ≡ text.old.items ++ open_line (names f.now) net.now) }
{
    text.extend_from_slice(b"open ")?;
    text.extend_from_slice(f.name_of(net.net).bytes())?;
    text.extend_from_slice(b"\n")?;
    Ok(())
}

/// Adds the lines of inputs that exclude nets.
fn add_inputs(text: &mut Vec<u8>, excluding: &[Excluding]) -> Result<(), OutOfMemory>
    ensures { OnOk result (text.new.items ≡ text.old.items ++ flat_map input_line excluding.now) }
{
    for one in excluding {
        add_input(text, one)?;
    }
    Ok(())
}

fn add_input(text: &mut Vec<u8>, excluding: &Excluding) -> Result<(), OutOfMemory>
    ensures { OnOk result (text.new.items ≡ text.old.items ++ input_line excluding.now) }
{
    text.extend_from_slice(b"input ")?;
    add_bits(text, excluding.input.as_slice())?;
    add_line(text, b" ", excluding.nets.len() as u64)?;
    Ok(())
}
