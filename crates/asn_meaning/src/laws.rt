//! Laws of meaning, each the contract of a function without a body.

ghost use Rattle.asn_meaning.specs.Laws.{AcceptedFits, BoundsExact, DenotedFits, DenotedStays, EnvironmentsChangeTags, HeadsStay, MoreSteps, NumbersAgree, OneAnswer, RetaggedTypesMeanTheSame, SameTreesJudgeAlike, ShapesStay, TagsDenoteAlike, TagsJudgeAlike, TagsKeepPlainForm, TagsLeadAlike};

/// More steps never change a yes or a no: only an unknown answer may become another.
pub fn more_steps()
    ensures { MoreSteps }
{}

/// A head that is found stays.
pub fn heads_stay()
    ensures { HeadsStay }
{}

/// More steps never change whether a tree fits a type.
pub fn shapes_stay()
    ensures { ShapesStay }
{}

/// What a value denotes stays, and so does that it denotes nothing.
pub fn denoted_stays()
    ensures { DenotedStays }
{}

/// No tree is both accepted and rejected.
pub fn one_answer()
    ensures { OneAnswer }
{}

/// The whole numbers that are found for a type, which a mark beside MIN or MAX goes by, are those that it accepts.
pub fn numbers_agree()
    ensures { NumbersAgree }
{}

/// What a type accepts fits its kind at every depth.
pub fn accepted_fits()
    ensures { AcceptedFits }
{}

/// What a value denotes under a type fits the type's kind at every depth, where no two members share a name.
pub fn denoted_fits()
    ensures { DenotedFits }
{}

/// A set of whole numbers that is found has a number below another, or above it, exactly where its tests say so.
pub fn bounds_exact()
    ensures { BoundsExact }
{}

/// Trees that are the same, structs compared as maps, are judged alike.
pub fn same_trees_judge_alike()
    ensures { SameTreesJudgeAlike }
{}

/// Tags mean nothing: definitions, scopes and types that differ in their tags alone give the same answer, within as many
/// steps. Each definition, argument and governor may have its tags changed in its own way.
pub fn tags_judge_alike()
    ensures { TagsJudgeAlike }
{}

/// The heads of types that differ in their tags alone do so too, and the same trees fit them.
pub fn tags_lead_alike()
    ensures { TagsLeadAlike }
{}

/// Values that differ in their tags alone denote the same.
pub fn tags_denote_alike()
    ensures { TagsDenoteAlike }
{}

/// A definition's numbers and its module's tagging environment change no more of it than its tags.
pub fn environments_change_tags()
    ensures { EnvironmentsChangeTags }
{}

/// The type that a name stands for stands for it, with other tags, where tags are changed, and accepts the same trees.
pub fn retagged_types_mean_the_same()
    ensures { RetaggedTypesMeanTheSame }
{}

/// A type is in plain form exactly where it is so with other tags.
pub fn tags_keep_plain_form()
    ensures { TagsKeepPlainForm }
{}
