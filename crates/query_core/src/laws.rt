//! Laws of the definitions that the contracts cite. These functions do nothing: each law is a
//! contract.
ghost use Rattle.std.specs.Prelude.{◌≡◌};
ghost use Rattle.query_core.specs.CheckLaws.{CheckFaultIsOfLine, CheckedIsText};
ghost use Rattle.query_core.specs.CountLaws.{AnswerCountsAreOne, ServingCountsAreOne};
ghost use Rattle.query_core.specs.CountLaws.{SourceCountIsOne};
ghost use Rattle.query_core.specs.Fronts.{AnswerHasFront, FaultFollowsFront, MergeHasFront};
ghost use Rattle.query_core.specs.Fronts.{PagesHaveFront, RepliesHaveFront};
ghost use Rattle.query_core.specs.declared.merging.TheConstants.{SOURCES_LIMIT};
ghost use Rattle.query_core.specs.Limits.{LINE_LIMIT, QUERY_LIMIT};
ghost use Rattle.query_core.specs.MergeLaws.{KeptIsIndex, MergedIsIndex, MergesCommute};
ghost use Rattle.query_core.specs.MergeLaws.{MergesDropFiles, MergesGroup};
ghost use Rattle.query_core.specs.NothingAsked.{AppendedSelectsNothing, EmptyIsRefused};
ghost use Rattle.query_core.specs.OneText.{AnswerIsOne, ConversationIsOne, MergeIsOne};
ghost use Rattle.query_core.specs.OneText.{PagesAreOne, RepliesAreOne, TakenIsOne};
ghost use Rattle.query_core.specs.PageLines.{EmptyLineIsBeforeKey, JsonLinesBeginWithBrackets};
ghost use Rattle.query_core.specs.PageLines.{NoPageHasFaults, OneFieldHasMarks, OneFieldHasNoSpace};
ghost use Rattle.query_core.specs.PageLines.{TwoFieldsBeginAsRefusals};
ghost use Rattle.query_core.specs.PartLaws.{AnsweredStandInSources, GivenAreRead};
ghost use Rattle.query_core.specs.PartLaws.{PagesStandInSources};
ghost use Rattle.query_core.specs.QueryLaws.{AddedOnlyAdd, AllAreKept, CdxjPageIsIndex};
ghost use Rattle.query_core.specs.QueryLaws.{AskedAreChain, GrowingLosesNone};
ghost use Rattle.query_core.specs.QueryLaws.{KeysContinue, NamesNameFields, NoLineIsAtFault};
ghost use Rattle.query_core.specs.QueryLaws.{PagesRise, SelectedAreFirst, SelectedRise};
ghost use Rattle.query_core.specs.ReachLaws.{AbsentAnswerSearches, AbsentPagesSearch, EmptyTakeNoStep};
ghost use Rattle.query_core.specs.ReachLaws.{FewAreHeld, UnwrittenAnswerReadsFirst};
ghost use Rattle.query_core.specs.ReachLaws.{UnwrittenPagesReadFirst, UnwrittenRepliesReadOne};
ghost use Rattle.query_core.specs.RefusalLaws.{BadSizesAreFirst, CheckNamesItsIndex};
ghost use Rattle.query_core.specs.RefusalLaws.{TooManyAreRefused, TwoAreBeforeReading};

use query_text::resume_key_is_put_into_query;
use source_core::Source;

/// What a query selects of indexes rises by place. It consists of the lines that match, of those at
/// one place the first. If the query collapses nothing, its pages leave out none of what it selects
/// above its resume key.
pub fn pages_are_selected()
    ensures rise { SelectedRise }
    ensures members { SelectedAreFirst }
    ensures plain { AllAreKept }
{}

/// A capture that a query selects of some indexes is also selected if further indexes follow them:
/// what is added to the indexes only adds captures.
pub fn added_indexes_only_add()
    ensures { AddedOnlyAdd }
{
    pages_are_selected();
}

/// A query that is asked again and again with a limit, each time after the place that the page
/// before gives, has the pages that `pages` has with that limit as its one size.
pub fn queries_in_turn_are_the_chain()
    ensures { AskedAreChain }
{}

/// Who asks for one page after another, each with the resume key of the one before, misses no
/// capture of the indexes as they were at first, if the query collapses nothing: what is added to
/// the indexes meanwhile takes nothing away.
pub fn pages_of_growing_indexes_lose_none()
    ensures { GrowingLosesNone }
{
    pages_are_selected();
    added_indexes_only_add();
}

/// Over indexes, a page in cdxj that ends without a resume key is an index of its captures.
pub fn cdxj_pages_are_indexes()
    ensures { CdxjPageIsIndex }
{}

/// The lines that a merge of indexes writes are an index, with these lines.
#[tactic(auto, using(crate::proofs::PageIndexes::merged_rules))]
pub fn merged_lines_are_an_index()
    ensures { MergedIsIndex }
{}

/// A merge may take the merge of some indexes in their stead. If the indexes have one line at each
/// place, their order is of no account either.
#[tactic(auto, using(crate::proofs::ComposeLemmas::merges_compose))]
pub fn merges_compose()
    ensures group { MergesGroup }
    ensures order { MergesCommute }
{}

/// Without the lines of some file names, a merge of indexes is an index, and the merge of the
/// indexes without these lines. So an archive is taken out of an index by its file name.
#[tactic(auto, using(crate::proofs::DropLemmas::merges_drop))]
pub fn dropped_files_leave_the_rest()
    ensures merge { MergesDropFiles }
    ensures index { KeptIsIndex }
{}

/// The captures of consecutive pages, whatever the bytes of the sources, rise by place, match the
/// query, and are above the place after which the first page begins.
pub fn pages_rise()
    ensures { PagesRise }
{}

/// The resume key at the end of a page, put into the query's text as it was printed, asks for the
/// same query after the page's last capture.
pub fn resume_keys_continue()
    ensures { KeysContinue }
{
    resume_key_is_put_into_query();
}

/// Over indexes, no call returns the fault of a line.
#[tactic(auto, using(crate::proofs::PageIndexes::no_line_at_fault))]
pub fn indexes_have_no_line_at_fault()
    ensures { NoLineIsAtFault }
{}

/// No line of a page is one of a reply that isn't a page, or that ends a reply, but in text of one
/// field or of two. The lines of the page have entries. A line `.` is only in a page of one field,
/// in text. A page begins with a line of a refusal only if it has two, in text. No page has the
/// line of a fault after an empty line. In text and cdxj an empty line stands only before a resume
/// key. A page of one field, in text, has no space. In json each line begins with `[`.
#[tactic(auto, using(crate::proofs::PageLineLemmas::page_line_laws))]
pub fn replies_are_told_from_pages()
    ensures mark { OneFieldHasMarks }
    ensures refused { TwoFieldsBeginAsRefusals }
    ensures fault { NoPageHasFaults }
    ensures empty { EmptyLineIsBeforeKey }
    ensures one { OneFieldHasNoSpace }
    ensures json { JsonLinesBeginWithBrackets }
{}

/// A query with `&hasnot=urlkey:` after it, within the limit, selects nothing, and is refused as
/// the query is. An empty text is refused as `NoUrl`. So either may follow a query, to end its
/// reply.
#[tactic(auto, using(crate::proofs::NothingLemmas::appended))]
pub fn appended_condition_selects_nothing()
    ensures nothing { AppendedSelectsNothing }
    ensures empty { EmptyIsRefused }
{}

/// Of the same lines, and over an output whose bytes are known, there is one text that an answer
/// that succeeds writes, and one report of the captures.
#[tactic(auto, using(crate::proofs::PageChains::one_written))]
pub fn answer_writes_one_text()
    ensures { AnswerIsOne }
{}

/// Of the same lines, and over an output whose bytes are known, there is one text that pages of the
/// same sizes write, and one number of pages.
pub fn pages_write_one_text()
    ensures { PagesAreOne }
{}

/// Of the same lines, and over an output whose bytes are known, there is one text that a merge that
/// succeeds writes, and one number of lines.
#[tactic(auto, using(crate::proofs::PageChains::one_written))]
pub fn merge_writes_one_text()
    ensures { MergeIsOne }
{}

/// Over indexes, the replies to lines are those of their collection: each has one reply.
#[tactic(auto, using(crate::proofs::ReplyLemmas::replies_one))]
pub fn replies_over_indexes_are_one()
    ensures { RepliesAreOne }
{}

/// Over indexes, and an input and an output whose bytes are known, there is one text that a
/// conversation that succeeds writes, and one number of replies.
pub fn conversation_over_indexes_writes_one_text()
    ensures { ConversationIsOne }
{}

/// Where the input of a conversation over indexes failed, what is left of it decides what was
/// written.
pub fn what_is_left_decides_what_was_written()
    ensures { TakenIsOne }
{}

/// Whatever the bytes of the sources, each capture that is given is a line of one of them. No more
/// are given than lines were read, and no more lines are read than there are.
pub fn captures_stand_in_sources()
    ensures answer { AnsweredStandInSources }
    ensures pages { PagesStandInSources }
    ensures few { GivenAreRead }
{}

/// Of the same lines, and over an output whose bytes are known, a call that fails has written a
/// front of what one that succeeds writes. Over indexes that holds of a conversation too. Over any
/// bytes a reply is a page, or a front of one and a line of a fault.
pub fn faults_leave_a_front()
    ensures answer { AnswerHasFront }
    ensures pages { PagesHaveFront }
    ensures merge { MergeHasFront }
    ensures serve { RepliesHaveFront }
    ensures reply { FaultFollowsFront }
{}

/// What a call answers decides every count of failures after it, but for the input of a
/// conversation, which may be too long.
pub fn answers_decide_counts()
    ensures answer { AnswerCountsAreOne }
    ensures check { SourceCountIsOne }
    ensures serve { ServingCountsAreOne }
{}

/// What isn't there costs a search in each index: over indexes without a line in the range of the
/// query's target, no source gives more than a search takes, two lines and a piece.
pub fn absent_targets_cost_a_search<S: Source>()
    ensures answer { AbsentAnswerSearches S.Source }
    ensures pages { AbsentPagesSearch S.Source }
{}

/// Sources are read no further than what stands written asks for: before anything is written, up to
/// the first capture, and in a conversation for one line of its input. Of indexes with a line for
/// each pair, one line of each is held and one more. In empty sources a search takes no step.
pub fn little_is_read_ahead<S: Source>()
    ensures answer { UnwrittenAnswerReadsFirst S.Source }
    ensures pages { UnwrittenPagesReadFirst S.Source }
    ensures serve { UnwrittenRepliesReadOne S.Source }
    ensures held { FewAreHeld S.Source }
    ensures steps { EmptyTakeNoStep S.Source }
{}

/// A call refuses more sources than the limit, and no others, and then has changed nothing. Bad
/// sizes come first. No other fault comes before reading. A check fails for want of memory, or
/// names its one index.
pub fn refusals_are_these()
    ensures many { TooManyAreRefused }
    ensures sizes { BadSizesAreFirst }
    ensures reading { TwoAreBeforeReading }
    ensures check { CheckNamesItsIndex }
{}

/// What `check` says of a text that is known: it is an index of this number of lines, or the lines
/// before the first one at fault are an index by themselves, and that line is at fault as the other
/// calls say it. So no index is refused.
pub fn checked_texts_are_indexes()
    ensures text { CheckedIsText }
    ensures fault { CheckFaultIsOfLine }
{}

/// The name of a field, as pages write it, names the field in a query.
#[tactic(auto, unfolding(cdxj_core::specs::Fields::field_named))]
pub fn names_name_fields()
    ensures { NamesNameFields }
{}

/// The limits, as numbers: the bytes of a line, the bytes of a query's text, and the number of
/// indexes.
pub fn limits_are_these()
    ensures line { LINE_LIMIT ≡ 16777216 }
    ensures query { QUERY_LIMIT ≡ 65536 }
    ensures sources { SOURCES_LIMIT ≡ 1024 }
{}
