//! The main theorems of the allocator: what holds of every list of requests. Each function does
//! nothing: its contract is the law. The laws speak of the machine in `specs/Pages.antt`. The
//! contract of `serve` states that `serve` answers as this machine does, and leaves the machine's
//! last state.

ghost use Rattle.bit_histories.specs.Histories.{AnswersAreOfTheirStates, CallsAnswerAsLists};
ghost use Rattle.bit_pages.specs.Pages.{answer_to, state_after, request_answers, final_state};
ghost use Rattle.bit_pages.specs.PageLaws.{PagesAreFree, FullExactlyIfAllAreTaken};
ghost use Rattle.bit_pages.specs.PageLaws.{NotFreeExactlyIfNotFree};
ghost use Rattle.bit_pages.specs.PageLaws.{RunsAreFree, NoRunExactlyIfNoneIsFree};
ghost use Rattle.bit_pages.specs.PageLaws.{GivenExactlyIfTaken, NotTakenExactlyIfNotTaken};
ghost use Rattle.bit_pages.specs.PageLaws.{UnchangedExactlyIfRefused, PagesStay, AnswersAreBelow};
ghost use Rattle.bit_pages.specs.PageLaws.{PagesComeBackBetween, TakenPagesComeBackFirst};
ghost use Rattle.bit_pages.specs.PageLaws.{PagesAreCounted};
ghost use Rattle.bit_pages.specs.PageLaws.{PagesAreOutstanding};

/// States that a page is answered exactly if any page is asked for and this page is the least free
/// one, or if this page is asked for and free.
pub fn pages_are_free()
    ensures { PagesAreFree }
{}

/// States that `NotFree` is answered exactly if one page is asked for that is not a free page, or
/// one run that is not a free run.
pub fn not_free_exactly_if_not_free()
    ensures { NotFreeExactlyIfNotFree }
{}

/// States that `Full` is answered exactly if any page is asked for and all are taken.
pub fn full_exactly_if_all_are_taken()
    ensures { FullExactlyIfAllAreTaken }
{}

/// States that a run of pages is answered exactly if any run of a length is asked for and this run
/// is the first free one, or if this run is asked for and free.
pub fn runs_are_free()
    ensures { RunsAreFree }
{}

/// States that `NoRun` is answered exactly if any run of a length is asked for and no free run has
/// that length.
pub fn no_run_exactly_if_none_is_free()
    ensures { NoRunExactlyIfNoneIsFree }
{}

/// States that `Given` is answered exactly if a page is given back that is taken, or a run that
/// ends at or below the number of pages and has only taken pages.
pub fn given_exactly_if_taken()
    ensures { GivenExactlyIfTaken }
{}

/// States that `NotTaken` is answered exactly if a page is given back that is not taken, or a run
/// that ends past the last page or has a page that is not taken.
pub fn not_taken_exactly_if_not_taken()
    ensures { NotTakenExactlyIfNotTaken }
{}

/// States that a request changes nothing exactly if its answer is `Full`, `NotFree`, `NoRun` or
/// `NotTaken`, or if it takes or gives back a run of length 0.
pub fn unchanged_exactly_if_refused()
    ensures { UnchangedExactlyIfRefused }
{}

/// States that no list of requests changes how many pages there are.
pub fn pages_stay()
    ensures { PagesStay }
{}

/// States that in every list, each page that is answered is below the number of pages, and each run
/// that is answered ends at or below it.
pub fn answers_are_below()
    ensures { AnswersAreBelow }
{}

/// States that in every list, request `i` is answered in the state that the earlier requests leave,
/// and that there is no other answer. So what holds of one answer in any state holds of each answer
/// of the list.
pub fn answers_are_of_their_states()
    ensures { AnswersAreOfTheirStates answer_to state_after request_answers final_state }
{}

/// States that the number of pages taken after a list of requests is the number before the list,
/// plus the number that the list hands out, minus the number that it gives back.
pub fn pages_are_counted()
    ensures { PagesAreCounted }
{}

/// States that if two answers hand out the same page, that page was given back between them. Each
/// time, the page may be alone or in a run of pages.
pub fn pages_come_back_between()
    ensures { PagesComeBackBetween }
{}

/// States that a list of requests hands out a page that was taken before the list only after the
/// list gave that page back.
pub fn taken_pages_come_back_first()
    ensures { TakenPagesComeBackFirst }
{}

/// States what holds of the pages that a list of requests hands out and that are not given back in
/// it afterwards. These pages are distinct. None of them was taken before the list, unless the list
/// gave it back. Together with the pages taken before the list and not given back in it, they are
/// the pages taken after the list.
pub fn pages_are_outstanding()
    ensures { PagesAreOutstanding }
{}

/// States that calls of `take`, `take_at`, `give_back`, `take_run`, `take_run_at` and
/// `give_back_run` in any sequence are a history exactly if they answer as the machine does on the
/// list of their requests, and leave its last state. The clauses of each call say what it answers
/// and which pages it leaves, so such calls are a history. So each law of lists of requests holds
/// for them too.
pub fn calls_answer_as_lists()
    ensures { CallsAnswerAsLists answer_to state_after request_answers final_state }
{}
