//! How many of a folder's segments are judged by their folds.

ghost use Rattle.std.specs.Prelude.{◌≡◌, length};
ghost use Rattle.eos_checking.specs.FoldCounts.{is_fold, fold_count, wanted_with};

use crate::check::Wanted;
use eos_disk::Form;
use eos_report::About;

/// How many segments a folder has, and how many of them stand there as their folds.
#[derive(Clone, Copy)]
pub struct Folded {
    pub folds: u64,
    pub segments: u64,
}

fn is_fold(form: Form) -> bool
    ensures { result ≡ is_fold form }
{
    match form {
        Form::Log => false,
        Form::Fold => true,
    }
}

fn fold_count(forms: &[Form]) -> u64
    ensures { result ≡ fold_count forms.now }
{
    let mut count = 0u64;
    for form in forms {
        if is_fold(*form) {
            count += 1;
        }
    }
    count
}

/// Of segments in these forms.
pub(crate) fn folded_of(forms: &[Form]) -> Folded
    ensures folds { result.folds ≡ fold_count forms.now }
    ensures segments { result.segments ≡ length forms.now }
{
    Folded {
        folds: fold_count(forms),
        segments: forms.len() as u64,
    }
}

/// What is wanted beside an answer, with this count in its report.
pub(crate) fn wanted_with(folds: u64, wanted: Option<Wanted<'_>>) -> Option<Wanted<'_>>
    ensures { result ≡ wanted_with folds wanted.entry }
{
    match wanted {
        None => None,
        Some(it) => Some(Wanted {
            about: About { folds, ..it.about },
            ..it
        }),
    }
}
