ghost use Rattle.std.specs.Prelude.{◌≡◌, ◌≢◌, ◌↔◌, ◌⊎◌, ◌≤◌, ℕ, Err, IfErr, IsTrue, List, None, length, map};
ghost use Rattle.std.specs.Option.{ForSome};
ghost use Rattle.design_cli.specs.Outcome.{Asks, BeforeWriting, EndsEarly, ForAsked, IsAnswer, IsOutcome, IsRefusal, NoFault, Writing};
ghost use Rattle.design_cli.specs.Report.{report};
ghost use Rattle.design_cli.specs.Words.{asked_by};
ghost use Rattle.design_cli.specs.declared.status.Status.{Status as Ended};
ghost use Rattle.design_model.specs.Feasible.{AreMinima};
ghost use Rattle.design_model.specs.Parts.{is_catalogue, required_ports};
ghost use Rattle.design_model.specs.declared.design.Design.{Design};
ghost use Rattle.design_world.specs.Bytes.{followed};
ghost use Rattle.design_world.specs.Fault.{NeverFall, Rose};
ghost use Rattle.design_world.specs.Files.{SameFiles};
ghost use Rattle.value_type.specs.declared.poset.Types.{Types};
ghost use Rattle.value_type.specs.declared.value.Value.{Value};

use crate::answer::answer;
use crate::laws::questions_have_one_answer;
use crate::status::Status;
use crate::words::question_of;
use design_world::{Folder, Sink, Source, WorldFault, put_all};
use library_load::{LoadFault, load};
use order_core::Text;
use std::alloc::Global;

/// The report of a design of the library at a place, for a query.
fn solve<F: Folder>(
    alloc: Global,
    folder: &mut F,
    place: &str,
    name: &str,
    query: &str,
) -> Result<Text, Status>
    ensures same { SameFiles (F.files folder.old) (F.files folder.new) }
    ensures counts { NeverFall (F.faults folder.old) (F.faults folder.new) }
    ensures fault { result ≡ Err Status.FolderFault → Rose (F.faults folder.old place.now) (F.faults folder.new place.now) }
    ensures reliable { IsTrue (F.is_reliable folder.old) →
        ((place : List ℕ) → F.faults folder.new place ≡ F.faults folder.old place) × (result ≢ Err Status.FolderFault) }
    ensures early { IfErr result EndsEarly }
    ensures solves { ForSome (F.files folder.old place.now) (λ files. IsAnswer (record { place = place.now; name = name.now; query = query.now }) files result) }
{
    match load(alloc, folder, place) {
        Ok(library) => answer(alloc, &library, name, query),
        Err(LoadFault::Folder) => Err(Status::FolderFault),
        Err(LoadFault::Library(fault)) => Err(Status::LibraryRefused(fault)),
        Err(LoadFault::Memory) => Err(Status::Memory),
    }
}

/// Writes a report.
fn write_report<K: Sink>(alloc: Global, out: &mut K, report: &Text) -> Status
    ensures writing { Writing report.now (K.written out.old) (K.written out.new) result }
    ensures later { K.faults out.old ≤ K.faults out.new }
    ensures fault { result ≡ Status.SinkFault → Rose (K.faults out.old) (K.faults out.new) }
    ensures reliable { IsTrue (K.is_reliable out.old) → (K.faults out.new ≡ K.faults out.old) × (result ≢ Status.SinkFault) }
{
    match put_all(alloc, out, report.as_str().as_bytes()) {
        Ok(()) => Status::Done,
        Err(WorldFault::Failed) => Status::SinkFault,
        Err(WorldFault::Memory) => Status::Memory,
    }
}

/// Answers the words, from the library in a folder: writes the least resources of a design for a functionality.
///
/// The folder is asked at the place that the words name. A count rose where it is greater at the return
/// than at the call, or stands at the greatest `u64`.
pub fn run<F: Folder, S: Source, K: Sink>(
    alloc: Global,
    words: &[&str],
    folder: &mut F,
    input: &mut S,
    out: &mut K,
) -> Status
    // Where library and query are accepted, the design is a catalogue and no device failed, exactly the minimal rows are
    // written, unless memory was wanting.
    ensures headline { ForAsked (map (λ word. word.now) words.now) (F.files folder.old) (λ asked files.
        (types : Types) (design : Design) (f : List Value) → Asks asked files types design f → IsTrue (is_catalogue design)
        → (Rose (F.faults folder.old asked.place) (F.faults folder.new asked.place) → ⊥) → (Rose (K.faults out.old) (K.faults out.new) → ⊥) → result ≢ Status.Memory
        → (result ≡ Status.Done) × (rows : List (List Value)) × AreMinima types design f rows × (K.written out.new ≡ followed (K.written out.old) (report types (required_ports design) rows))) }

    // With reliable devices an accepted library and query are answered, where the design is a catalogue, unless memory was
    // wanting.
    ensures complete { IsTrue (F.is_reliable folder.old) → IsTrue (K.is_reliable out.old) → ForAsked (map (λ word. word.now) words.now) (F.files folder.old) (λ asked files.
        (types : Types) (design : Design) (f : List Value) → Asks asked files types design f → IsTrue (is_catalogue design)
        → (result ≡ Status.Done) ⊎ (result ≡ Status.Memory)) }

    // What each status says of the question and the files, and of the bytes that were written.
    ensures says { ForAsked (map (λ word. word.now) words.now) (F.files folder.old) (λ asked files.
        IsOutcome asked files (K.written out.old) (K.written out.new) result) }

    // Each refusal comes exactly where it has its cause.
    ensures usage { (result ≡ Status.Usage) ↔ (asked_by (map (λ word. word.now) words.now) ≡ None) }
    ensures refused { ForAsked (map (λ word. word.now) words.now) (F.files folder.old) (λ asked files.
        (refusal : Ended) → IsRefusal asked files refusal → result ≢ Status.FolderFault → result ≢ Status.Memory → result ≡ refusal) }

    // When each fault comes.
    ensures folder_fault { result ≡ Status.FolderFault → ForSome (asked_by (map (λ word. word.now) words.now)) (λ asked.
        Rose (F.faults folder.old asked.place) (F.faults folder.new asked.place)) }
    ensures sink_fault { result ≡ Status.SinkFault → Rose (K.faults out.old) (K.faults out.new) }
    ensures reliable { IsTrue (F.is_reliable folder.old) → IsTrue (K.is_reliable out.old) →
        NoFault result × ((place : List ℕ) → F.faults folder.new place ≡ F.faults folder.old place) × (K.faults out.new ≡ K.faults out.old) }

    // What stays as it was.
    ensures same { SameFiles (F.files folder.old) (F.files folder.new) }
    ensures counts { NeverFall (F.faults folder.old) (F.faults folder.new) × (K.faults out.old ≤ K.faults out.new) }
    ensures unwritten { BeforeWriting result (out.new ≡ out.old) }
    ensures unread { input.new ≡ input.old }
{
    questions_have_one_answer();
    let Some(question) = question_of(words) else {
        return Status::Usage;
    };
    match solve(alloc, folder, question.place, question.name, question.query) {
        Ok(report) => write_report(alloc, out, &report),
        Err(status) => status,
    }
}
