//! Gathering the forest of the kept words.
ghost use Rattle.histories.specs.Calls.{gather as gathering, and_lists};
ghost use Rattle.reader.specs.Readings.{Makes};
ghost use Rattle.reader.specs.Replies.{counts};

use crate::fault::ReadingFault;
use crate::reading::Reading;
use forest::{Counts, gather};
use records::{Alternative, Node};
use states::StateSource;

impl<S: StateSource> Reading<S> {
    /// Writes the nodes and the alternatives of all derivations of the kept words into the two lists, each once and in order, and blank
    /// records past them.
    pub fn gather(
        &self,
        nodes: &mut [Node],
        alternatives: &mut [Alternative],
    ) -> Result<Counts, ReadingFault>
        ensures { Makes S.meaning self.now (gathering nodes.old alternatives.old) (and_lists (counts result) nodes.new alternatives.new) self.now }
    {
        let _limit = self.limit()?;
        let links = self.links.all();
        Ok(gather(&self.source, &self.words, links, nodes, alternatives)?)
    }
}
