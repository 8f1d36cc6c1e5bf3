ghost use Rattle.std.specs.Prelude.{◌≡◌, ◌+◌, ◌↔◌, OnOk, OnErr, IsErr};

/// How many steps a clause may still spend.
#[derive(Clone, Copy, Debug)]
pub struct Steps {
    pub left: u32,
}

/// No step is left.
#[derive(Clone, Copy, Debug)]
pub struct Spent;

impl Steps {
    /// Spends one step. `Spent` exactly where none is left. Takes no memory.
    pub fn tick(&mut self) -> Result<(), Spent>
        ensures ok { OnOk result (self.old.left ≡ self.new.left + 1) }
        ensures spent { IsErr result ↔ (self.old.left ≡ 0) }
        ensures err { OnErr result (self.new ≡ self.old) }
    {
        if self.left == 0 {
            return Err(Spent);
        }
        self.left -= 1;
        Ok(())
    }
}
