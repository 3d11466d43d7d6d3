// Makes a file of one that may be in doubt.
ghost use Rattle.std.specs.Prelude.{◌≡◌, ◌≤◌};
ghost use Rattle.sector_dev.specs.Confirming.{inner_of, is_in_doubt};

use super::ConfirmedFile;
use super::ruling::RulingSectors;
use crate::SectorFile;

impl<F: SectorFile + Drop> ConfirmedFile<F> {
    /// A file that is in doubt, or one that is not, as a new one, or one that can't be written.
    pub fn over(file: F, in_doubt: bool) -> ConfirmedFile<F>
        requires { 2 ≤ F.size file }
        ensures file { inner_of result ≡ file }
        ensures doubt { is_in_doubt result ≡ in_doubt }
    {
        ConfirmedFile {
            file,
            ruling: in_doubt.then(RulingSectors::unread),
        }
    }

    /// Gives back the file below.
    pub fn into_inner(self) -> F
        ensures { result ≡ inner_of self }
    {
        self.file
    }

    pub(crate) fn inner(&self) -> &F
        ensures { result.now ≡ inner_of self.now }
    {
        &self.file
    }
}
