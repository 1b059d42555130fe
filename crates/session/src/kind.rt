// The kinds of a body, which its first octet tells (docs/LAYOUT.md, 'Sessions').
ghost use Rattle.std.specs.Prelude.{◌≡◌};
ghost use Rattle.session.specs.Layout.{form_of, fields_end, is_readable};
ghost use Rattle.session.specs.Kinds.{number_of, form_named};

#[derive(Clone, Copy)]
pub(crate) enum Kind {
    Data,
    Reminder,
    Tick,
    Close,
    Look,
    Fresh,
    Use,
    Period,
    Received,
    Read,
    Write,
}

impl Kind {
    #[tactic(auto, unfolding(crate::specs::Layout::form_of))]
    pub(crate) fn of(octet: u8) -> Option<Kind>
        ensures { form_named result ≡ form_of octet }
    {
        let kind = match octet {
            1 => Kind::Data,
            2 => Kind::Reminder,
            3 => Kind::Tick,
            4 => Kind::Close,
            5 => Kind::Look,
            6 => Kind::Fresh,
            7 => Kind::Use,
            8 => Kind::Period,
            9 => Kind::Received,
            10 => Kind::Read,
            11 => Kind::Write,
            _ => return None,
        };
        Some(kind)
    }

    // How many octets the kind and the fields take.
    #[tactic(auto, unfolding(crate::specs::Layout::form_of))]
    pub(crate) fn fields_end(self) -> usize
        ensures { result ≡ fields_end (number_of self) }
    {
        match self {
            Kind::Data => 28,
            Kind::Reminder => 24,
            Kind::Tick | Kind::Close => 22,
            Kind::Look | Kind::Received => 14,
            Kind::Fresh | Kind::Use => 5,
            Kind::Period | Kind::Read => 1,
            Kind::Write => 21,
        }
    }

    // Whether a body of this kind may have this length. Other octets may follow the fields of the last two kinds alone.
    #[tactic(auto, unfolding(crate::specs::Layout::form_of))]
    pub(crate) fn may_have(self, length: usize) -> bool
        ensures { result ≡ is_readable (number_of self) length }
    {
        let end = self.fields_end();
        match self {
            Kind::Read | Kind::Write => end <= length,
            _ => length == end,
        }
    }
}
