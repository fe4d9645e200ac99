// Frames of the scan for a whole term: what is still to come at one level of the term.
ghost use Rattle.std.specs.Prelude.{◌≡◌, true, ◌&&◌, ◌≤◌, leb};
ghost use Rattle.calculus.specs.Words.{branch_kind, kind_of, payload_of, tag_of};
ghost use Rattle.calculus.specs.Payload.{payload_fits};
ghost use Rattle.terms.specs.Frames.{depth_limit, frame, is_filled, allowed, rest, entered_by, entered, starts_term, starts_branch};
ghost use Rattle.terms.specs.Packed.{unpacked, Packs, entered_of};

use words::Word;
use words::kind::Kind;
use words::payload::payload_fits;

// So many terms, then so many branches whose tags rise, the first one at least `least`, all under so many binders: four numbers in one word, the terms
// lowest, since so many frames wait on the machine stack.
#[derive(Clone, Copy, Default)]
pub struct Frame(pub u32);

// The most frames that wait in a term of a workspace.
pub const ROOM: usize = Word::WORKSPACE_MOST / 2;

impl Frame {
    // Above the terms stand the branches, above them the least tag, and above it the binders.
    const TERMS_BASE: u32 = 16;

    const BRANCHES_BASE: u32 = 16;

    const LEAST_BASE: u32 = 512;

    // One term under no binder.
    pub const WHOLE: Frame = Frame(1);

    fn new(terms: u32, branches: u32, depth: u32, least: u32) -> Frame
        requires { Packs terms branches depth least }
        ensures { unpacked result.0 ≡ frame terms branches depth least }
    {
        let upper = depth * Frame::LEAST_BASE + least;
        Frame((upper * Frame::BRANCHES_BASE + branches) * Frame::TERMS_BASE + terms)
    }

    fn terms(self) -> u32
        ensures { result ≡ (unpacked self.0).terms }
    {
        self.0 % Frame::TERMS_BASE
    }

    fn branches(self) -> u32
        ensures { result ≡ (unpacked self.0).branches }
    {
        self.0 / Frame::TERMS_BASE % Frame::BRANCHES_BASE
    }

    fn least(self) -> u32
        ensures { result ≡ (unpacked self.0).least }
    {
        self.0 / Frame::TERMS_BASE / Frame::BRANCHES_BASE % Frame::LEAST_BASE
    }

    fn depth(self) -> u32
        ensures { result ≡ (unpacked self.0).depth }
    {
        self.0 / Frame::TERMS_BASE / Frame::BRANCHES_BASE / Frame::LEAST_BASE
    }

    // Whether nothing is still to come.
    pub fn is_filled(self) -> bool
        ensures { result ≡ is_filled (unpacked self.0) }
    {
        self.terms() == 0 && self.branches() == 0
    }

    // The frame of what follows the word, or none where it may not come next.
    pub fn enter(self, word: Word) -> Option<Frame>
        requires { (unpacked self.0).depth ≤ depth_limit }
        ensures { entered_of result ≡ entered (unpacked self.0) word.0 }
    {
        if self.terms() > 0 {
            return enter_term(word, self.depth());
        }
        if self.branches() > 0 {
            return enter_branch(word, self.depth(), self.least());
        }
        None
    }

    // What is to come after the item that the word starts.
    #[tactic(auto, using(crate::proofs::Scan::branch_allowed))]
    pub fn rest(self, word: Word) -> Frame
        requires shallow { (unpacked self.0).depth ≤ depth_limit }
        requires may_stand { allowed (unpacked self.0) word.0 ≡ true }
        ensures { unpacked result.0 ≡ rest (unpacked self.0) word.0 }
    {
        if self.terms() > 0 {
            return Frame(self.0 - 1);
        }
        Frame::new(0, self.branches() - 1, self.depth(), word.tag() + 1)
    }
}

// The word as the first one of a term under `depth` binders.
#[tactic(auto, unfolding(crate::specs::Frames::starts_term, crate::specs::Frames::inside_by, words::specs::Bound::binding, calculus::specs::Skip::following, calculus::specs::Payload::payload_fits))]
fn enter_term(word: Word, depth: u32) -> Option<Frame>
    requires { depth ≤ depth_limit }
    ensures { entered_of result ≡ entered_by (starts_term depth (kind_of word.0) (payload_of word.0)) depth word.0 }
{
    let kind = word.kind();
    let payload = word.payload();
    let fits = payload_fits(kind as u32, payload);
    match kind {
        Kind::Variable => {
            let in_range = payload <= depth + Word::FREE_MOST;
            in_range.then_some(Frame::new(0, 0, depth, 0))
        }
        Kind::Abstraction => fits.then_some(Frame::new(1, 0, depth + 1, 0)),
        Kind::Application => fits.then_some(Frame::new(2, 0, depth, 0)),
        Kind::Constructor => fits.then_some(Frame::new(word.count(), 0, depth, 0)),
        Kind::Case => {
            // Tested before the frame is made, which has no room for more branches.
            if !fits {
                return None;
            }
            Some(Frame::new(1, payload, depth, 0))
        }
        Kind::Numeral => fits.then_some(Frame::new(0, 0, depth, 0)),
        Kind::Branch | Kind::Unassigned => None,
    }
}

// The word as that of a branch under `depth` binders, of a tag that is at least `least`.
#[tactic(auto, unfolding(crate::specs::Frames::starts_branch, crate::specs::Frames::inside_by, words::specs::Bound::binding, calculus::specs::Skip::following))]
fn enter_branch(word: Word, depth: u32, least: u32) -> Option<Frame>
    requires { depth ≤ depth_limit }
    ensures { entered_of result ≡ entered_by (starts_branch least (kind_of word.0) (payload_of word.0)) depth word.0 }
{
    if word.kind() != Kind::Branch {
        return None;
    }
    let frame = Frame::new(1, 0, depth + word.count(), 0);
    pattern_from(word, least).then_some(frame)
}

// Whether a branch may have the payload of the word, with a tag that is at least `least`.
fn pattern_from(word: Word, least: u32) -> bool
    ensures { result ≡ (leb least (tag_of (payload_of word.0)) && payload_fits branch_kind (payload_of word.0)) }
{
    least <= word.tag() && payload_fits(Word::BRANCH, word.payload())
}
