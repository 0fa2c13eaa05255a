ghost use Rattle.sections.specs.SectionLaws.{SectionLaws};
ghost use Rattle.sections.specs.Worked.{WorkedSections};

/// What holds of all sections: the shown cell is the least one in both, inclusion is told by the
/// first cell, the last and the steps, and no cell of a section that is read is above 4,294,852,290.
pub fn section_laws()
    ensures { SectionLaws }
{}

/// Worked sections, computed of the definitions.
pub fn worked_sections()
    ensures { WorkedSections }
{}
