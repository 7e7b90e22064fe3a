// The nodes of a formula: what a field's tag and length say.
ghost use Rattle.std.specs.Prelude.{◌≡◌, ◌≤◌};
ghost use Rattle.forms.specs.Edition.{edition1};
ghost use Rattle.formula_read.specs.Nodes.{node_of, sized};

use answers::refusals::Refusal;
use forms::TERM_BYTES;

#[derive(Clone, Copy)]
pub enum Node {
    // Or where either is true, and where it is false.
    Pair { either: bool },
    // "t = 0" where equality is true, "t ≤ 0" where it is false.
    Literal { equality: bool },
    Stride,
}

fn sized(len: usize, size: usize, node: Node) -> Result<Node, Refusal>
    ensures { result ≡ sized len size node }
{
    if len == size {
        return Ok(node);
    }
    Err(Refusal::WrongLength)
}

// 3, 4, 6. Few arms: what is small enough is compiled into both of its callers (docs/SPEED.md).
pub fn node_of(tag: u8, len: usize, k: usize) -> Result<Node, Refusal>
    requires { k ≤ edition1.constants }
    ensures { result ≡ node_of k tag len }
{
    let form = (k + 1) * TERM_BYTES;
    let either = tag == 0x31;
    let equality = tag == 0x34;
    match tag {
        0x31 | 0x32 => sized(len, 0, Node::Pair { either }),
        0x33 | 0x34 => sized(len, form, Node::Literal { equality }),
        0x35 => sized(len, form + TERM_BYTES, Node::Stride),
        0x01 | 0x02 => Err(Refusal::MisplacedTag),
        _ => Err(Refusal::UnknownTag),
    }
}
