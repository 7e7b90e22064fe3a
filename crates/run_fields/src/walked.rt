// A proof as the walk sees it.
ghost use Rattle.std.specs.Prelude.{◌≤◌};
ghost use Rattle.forms.specs.Edition.{edition1};

// Its bytes, K and its edition, as the number that the file says.
#[derive(Clone, Copy)]
pub struct WalkedProof<'a> {
    pub bytes: &'a [u8],
    pub k: usize,
    pub edition: u8,
    pub ghost few_constants: { k ≤ edition1.constants },
}
