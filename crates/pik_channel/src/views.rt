// What a look answers a host: a struct of plain words, with the number of a refusal in it.
ghost use Rattle.std.specs.Prelude.{◌≡◌};
ghost use Rattle.table_calls.specs.Look.{seen};
ghost use Rattle.pik_channel.specs.Answers.{seen_of};

use larq::Refused;

// The number, C, M, the latest time, and how many numbers there are from M to C.
#[repr(C)]
#[derive(Clone, Copy, Default)]
pub struct View {
    pub number: u8,
    pub current: u16,
    pub oldest: u16,
    pub latest: u64,
    pub span: usize,
}

impl From<Result<table_calls::View, Refused>> for View {
    ghost from_gives = { λ looked view. seen_of view ≡ seen looked };

    fn from(looked: Result<table_calls::View, Refused>) -> View {
        match looked {
            Ok(view) => View {
                number: 0,
                current: view.current,
                oldest: view.oldest,
                latest: view.latest,
                span: view.span,
            },
            Err(refused) => View {
                number: refused.into(),
                ..View::default()
            },
        }
    }
}
