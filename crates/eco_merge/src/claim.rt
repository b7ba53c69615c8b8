//! Claims that nodes are alike.

ghost use Rattle.std.specs.Prelude.{◌≡◌, IfSome};
ghost use Rattle.eco_merge.specs.Alike.{other_of as other_node};

/// The claim that a node is equal to another one, or complementary to it where `same` is false; without another one, that
/// it is the constant 0, or 1.
#[derive(Clone, Copy)]
pub(crate) struct Claim {
    pub(crate) node: u64,
    pub(crate) other: Option<u64>,
    pub(crate) same: bool,
}

/// The node as the other one of a claim; the constant, node 0, is none.
pub(crate) fn other_of(node: u64) -> Option<u64>
    ensures other { result ≡ other_node node }
    ensures same { IfSome result (λ m. m ≡ node) }
{
    if node == 0 { None } else { Some(node) }
}
