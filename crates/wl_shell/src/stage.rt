//! How far a role object is.

ghost use Rattle.std.specs.Prelude.{◌≡◌};
ghost use Rattle.wl_shell.specs.Shell.{acknowledged, answers_states};

/// How far a role object is (xdg-shell.xml, xdg_surface: the initial commit, ack_configure, and
/// mapping).
#[derive(Clone, Copy, Debug, PartialEq, Eq)]
pub enum Stage {
    /// It wasn't configured since it was made, or since its surface was unmapped.
    Fresh,
    /// No configure was acknowledged yet; one waits.
    Waiting,
    /// A configure was acknowledged, and its surface isn't mapped yet.
    Ready,
    /// Its surface is mapped.
    Mapped,
}

impl Stage {
    /// The stage after an acknowledgement.
    pub(crate) fn acknowledged(self) -> Stage
        ensures { result ≡ acknowledged self }
    {
        match self {
            Stage::Waiting => Stage::Ready,
            Stage::Fresh | Stage::Ready | Stage::Mapped => self,
        }
    }

    /// Whether a request for another state is answered by a configure: there was one before.
    pub(crate) fn answers_states(self) -> bool
        ensures { result ≡ answers_states self }
    {
        self != Stage::Fresh
    }
}
