//! When a check ends with status 0.

ghost use Rattle.std.specs.Prelude.{◌≡◌, ◌↔◌, ℕ};
ghost use Rattle.gm_command_line.specs.declared.job.Checking.{Checking};
ghost use Rattle.gm_metadata.specs.Images.{Image, Sizes};
ghost use Rattle.gm_process.specs.declared.status.Status.TheVariants.{Done};
ghost use Rattle.gm_registry_files.specs.declared.unopened.Whole.{Whole};
ghost use Rattle.gm_reports.specs.declared.report.Report.{Report};
ghost use Rattle.gm_state.specs.Records.{IsState};
ghost use Rattle.gm_looking.specs.AllWell.{IsAllWell};
ghost use Rattle.gm_looking.specs.Checks.{IsCheckOf};

/// A check's status is 0 just if all is well: there is a mirror, nothing is pending, no mirror lacks
/// a component, each is ACTIVE and its image as it is registered, no other image carries a mirror's
/// metadata unless it was given up, the registry has room for 5,000 commands at least, and with
/// `--data` the components of a mirror hold equal data.
pub fn check_law()
    ensures { (checking : Checking) (whole : Whole) (bytes : ℕ) (size : Sizes) (seen : Image)
        (report : Report) → IsState whole.loaded.state
        → IsCheckOf checking whole bytes size seen report
        → (report.status ≡ Done) ↔ IsAllWell checking whole size seen }
{}
