//! Subjects by number, and their tree.
ghost use Rattle.std.specs.Prelude.{◌≡◌};
ghost use Rattle.model.specs.Tree.{steps_up, in_tree};
ghost use Rattle.model.specs.Image.{subject_used, parent_in, privileges_in};

use crate::Tables;
use model::{Privileges, Subject, SubjectRow};

impl<'a> Tables<'a> {
    pub fn subject_used(&self, subject: Subject) -> bool
        ensures { result ≡ subject_used self.now.subjects subject.0 }
    {
        subject.0 < self.layout.subjects.used
    }

    pub fn parent_of(&self, subject: Subject) -> Subject
        ensures { result.0 ≡ parent_in self.now.subjects subject.0 }
    {
        self.row_at::<SubjectRow>(subject.0).parent
    }

    pub fn privileges_of(&self, subject: Subject) -> Privileges
        ensures { result ≡ privileges_in self.now.subjects subject.0 }
    {
        self.row_at::<SubjectRow>(subject.0).privileges
    }

    /// The steps from a subject up to the root of a tree. A tree has no number lower than its root's, so the climb ends as
    /// soon as it is not above the root. It is a loop with a measure: no library method climbs, and the group search alone recurs.
    pub fn steps_up(&self, subject: Subject, root: Subject) -> Option<u32>
        ensures { result ≡ steps_up (parent_in self.now.subjects) subject.0 root.0 }
    {
        let rows = self.rows::<SubjectRow>();
        let mut at = subject;
        let mut steps = 0;
        while root.0 < at.0 {
            let row = rows.row(at.0);
            let parent = row.parent;
            if at.0 <= parent.0 {
                return None;
            }
            at = parent;
            steps += 1;
        }
        if at.0 != root.0 {
            return None;
        }
        Some(steps)
    }

    /// The subject is in the tree of a root: steps lead up to it, however many.
    #[tactic(auto, using(crate::specs::Climbs::tree_by_steps))]
    pub fn in_tree(&self, root: Subject, subject: Subject) -> bool
        ensures { result ≡ in_tree (parent_in self.now.subjects) root.0 subject.0 }
    {
        self.steps_up(subject, root).is_some()
    }
}
