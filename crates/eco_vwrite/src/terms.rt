//! Names and terms as text.

ghost use Rattle.std.specs.Prelude.{◌≡◌, ◌<◌, ◌++◌, codes, IsTrue, List, All, length, map, OnOk};
ghost use Rattle.std.specs.List.{flat_map, join_by};
ghost use Rattle.eco_meaning.specs.Names.{is_name};
ghost use Rattle.eco_meaning.specs.Circuit.{names};
ghost use Rattle.eco_gates.specs.Gates.{IsTermBelow};
ghost use Rattle.eco_netlist.specs.Netlists.{name_at, names_at, named_term, AreNets};
ghost use Rattle.eco_vwrite.specs.Written.{name_text, operand_text};

use eco_meaning::Name;
use eco_netlist::{NetId, Netlist, OutOfMemory, Term};
use eco_tokens::is_plain;

fn push_bytes(text: &mut Vec<u8>, bytes: &[u8]) -> Result<(), OutOfMemory>
    ensures ok { OnOk result (text.new.items ≡ text.old.items ++ bytes.now) }
{
    text.extend_from_slice(bytes)?;
    Ok(())
}

/// An escaped identifier ends before white space (IEEE 1364-2005, 3.7.1).
fn push_escaped(text: &mut Vec<u8>, bytes: &[u8]) -> Result<(), OutOfMemory>
    ensures ok { OnOk result (text.new.items ≡ text.old.items ++ (codes "\\" ++ bytes.now ++ codes " ")) }
{
    text.extend_from_slice(b"\\")?;
    text.extend_from_slice(bytes)?;
    text.extend_from_slice(b" ")?;
    Ok(())
}

pub(crate) fn push_name(text: &mut Vec<u8>, name: &Name) -> Result<(), OutOfMemory>
    ensures ok { OnOk result (text.new.items ≡ text.old.items ++ name_text name.now) }
    ensures named { IsTrue (is_name name.now) }
{
    let bytes = name.bytes();
    if is_plain(bytes) {
        push_bytes(text, bytes)
    } else {
        push_escaped(text, bytes)
    }
}

#[tactic(auto, using(std::proofs::lemmas::Option::get_or_from_slice_get))]
pub(crate) fn push_net(text: &mut Vec<u8>, netlist: &Netlist, net: NetId) -> Result<(), OutOfMemory>
    requires { net.0 < length (names netlist.now) }
    ensures ok { OnOk result (text.new.items ≡ text.old.items ++ name_text (name_at (names netlist.now) net.0)) }
    ensures named { IsTrue (is_name (name_at (names netlist.now) net.0)) }
{
    push_name(text, netlist.name_of(net))
}

fn push_term(text: &mut Vec<u8>, netlist: &Netlist, term: Term) -> Result<(), OutOfMemory>
    requires { IsTermBelow (length (names netlist.now)) term }
    ensures ok { OnOk result (text.new.items ≡ text.old.items ++ operand_text (named_term (names netlist.now) term)) }
{
    match term {
        Term::Zero => push_bytes(text, b"1'b0"),
        Term::One => push_bytes(text, b"1'b1"),
        Term::Net(net) => push_net(text, netlist, net),
    }
}

/// Terms, each with a comma before it.
pub(crate) fn push_terms(
    text: &mut Vec<u8>,
    netlist: &Netlist,
    terms: &[Term],
) -> Result<(), OutOfMemory>
    requires { All (IsTermBelow (length (names netlist.now))) terms.now }
    ensures ok { OnOk result (text.new.items ≡ text.old.items
        ++ flat_map (λ operand. codes ", " ++ operand_text operand) (map (named_term (names netlist.now)) terms.now)) }
{
    for term in terms {
        text.extend_from_slice(b", ")?;
        push_term(text, netlist, *term)?;
    }
    Ok(())
}

/// Nets, each with a comma before it.
fn push_others(text: &mut Vec<u8>, netlist: &Netlist, nets: &[NetId]) -> Result<(), OutOfMemory>
    requires { AreNets (names netlist.now) nets.now }
    ensures ok { OnOk result (text.new.items ≡ text.old.items
        ++ flat_map (λ name. codes ", " ++ name_text name) (names_at (names netlist.now) nets.now)) }
{
    for net in nets {
        text.extend_from_slice(b", ")?;
        push_net(text, netlist, *net)?;
    }
    Ok(())
}

/// Nets with commas between.
pub(crate) fn push_nets(
    text: &mut Vec<u8>,
    netlist: &Netlist,
    nets: &[NetId],
) -> Result<(), OutOfMemory>
    requires { AreNets (names netlist.now) nets.now }
    ensures ok { OnOk result (text.new.items ≡ text.old.items
        ++ join_by name_text (codes ", ") (names_at (names netlist.now) nets.now)) }
{
    match nets.split_first() {
        Some((first, others)) => {
            push_net(text, netlist, *first)?;
            push_others(text, netlist, others)
        }
        None => Ok(()),
    }
}
