// What a call answers.
ghost use Rattle.rx_seq.specs.declared.replies.Reply.TheVariants.{Done};
ghost use Rattle.std.specs.Prelude.{◌≡◌};

/// The reply to a call.
#[derive(Clone, Copy, Debug, PartialEq, Eq)]
pub enum Reply {
    /// The call was made, and this is its number.
    Done { v: u32 },
    /// A sum would not fit.
    Over,
    /// The value that stands there is another one.
    Differs { v: u32 },
    /// There is no room.
    Full,
    /// There is nothing to take.
    Empty,
    /// The number is in the list now.
    Added,
    /// The number was in the list already.
    Present,
    /// The number is no longer in the list.
    Removed,
    /// The number was not in the list.
    Absent,
    /// The list has the number.
    Yes,
    /// The list has not the number.
    No,
    /// The register has less than the amount.
    Short { v: u32 },
}

impl Default for Reply {
    ghost is_default = { λ reply. reply ≡ Done 0 };

    fn default() -> Self {
        Reply::Done { v: 0 }
    }
}
