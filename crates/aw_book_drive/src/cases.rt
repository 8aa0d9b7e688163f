//! How each case stands once all messages came.
ghost use Rattle.aw_law_sites.specs.Worlds as V;
ghost use Rattle.aw_book_drive.specs.Cases.{PrintsCases};
ghost use Rattle.aw_book_drive.specs.Driving.{Nearly};

use crate::joining::Joined;
use aw_out::{PrintFault, Report};
use aw_world::{Workspace, settle};

impl<'g, W: Workspace> Joined<'g, W> {
    /// Delivers the messages that are left, and prints the artifact line of each node. These are the lines of one undivided workspace in
    /// which the choices of the joined events were taken. What is joined has all messages delivered from then on.
    ///
    /// # Errors
    /// `TooLarge` where the lines would pass the report's limit; `NoMemory`. The report has then got the front of the lines.
    pub fn print_cases(&mut self, report: &mut Report) -> Result<(), PrintFault>
        ensures { (v : V.World) → Nearly ⟦<W as Workspace>⟧ self.old.driver.world v → PrintsCases self.old.driver.world.accepted.now.grammar v report.old report.new result }
    {
        settle(&mut self.driver.world)?;
        let spots = self.driver.world.in_order()?;
        self.driver.world.print_rows(spots.as_slice(), report)
    }
}
