// The opcode of a capability frame (001, Table 12).
ghost use Rattle.std.specs.Prelude.{◌≡◌};
ghost use Rattle.capability.specs.Opcodes.{opcode_of};

use crate::Refused;

#[derive(Clone, Copy, PartialEq, Eq)]
pub(crate) enum Opcode {
    // Its sender announces its sets.
    Announcement,
    // Its sender announces its sets and asks the others for theirs.
    Request,
}

impl TryFrom<u8> for Opcode {
    type Error = Refused;

    ghost try_from_gives = { λ octet opcode. opcode ≡ opcode_of octet };

    fn try_from(octet: u8) -> Result<Opcode, Refused> {
        match octet {
            0 => Ok(Opcode::Announcement),
            1 => Ok(Opcode::Request),
            _ => Err(Refused::Opcode),
        }
    }
}
