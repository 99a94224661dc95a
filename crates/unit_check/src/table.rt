ghost use Rattle.std.specs.Prelude.{◌≡◌, ◌<◌, ◌^◌, [], IfOk, None, Some, length, map, option_and_then, replicate, slice_get, slice_set};
ghost use Rattle.std.specs.List.{flat_map};
ghost use Rattle.fault_list.specs.Answers.{Answers};
ghost use Rattle.name_rules.specs.Sizes.{IsSmall};
ghost use Rattle.name_table.specs.References.{branches_of};
ghost use Rattle.name_table.specs.declared.source.SourceFile.{SourceFile};
ghost use Rattle.side_ports.specs.Held.{sides_held};
ghost use Rattle.side_ports.specs.Sides.{sides_of};
ghost use Rattle.tree_units.specs.Ports.{port_faults};
ghost use Rattle.tree_units.specs.Posets.{poset_place};
ghost use Rattle.unit_check.specs.Declaring.{declaring, named_file, ports_at, ports_in, ports_of, tree_ports};
ghost use Rattle.unit_check.specs.Declaring as spec;
ghost use Rattle.unit_check.specs.Held.{IsTable, part_held, ports_held};
ghost use Rattle.unit_check.specs.Scopes.{part_scope, scope_at};
ghost use Rattle.unit_check.specs.TypeFaults.{declared_faults, file_port_faults, named_faults, part_faults, scope_faults};

use crate::connected::ports_in;
use crate::declared::declaring_files;
use crate::parameters::Parameters;
use crate::scope::{Scope, ScopePart};
use crate::shared::Shared;
use design_lexer::{BodyTree, BranchTree, File, ParamTree, PortTree};
use fault_list::{Fault, StageFault, Stop, in_file};
use name_rules::places_of;
use name_table::{Names, SourceFile};
use order_core::{List, NoMemory};
use side_ports::{SidePorts, side_ports};
use std::alloc::Global;

/// The ports of a library's files. Those of a file are worked out when they are first asked for, and shared from then on.
#[derive(Drop)]
pub struct PortTable {
    /// For each file the number of the file that declares its ports.
    pub(crate) declaring: List<u32>,
    /// For each file the ports that it declares, once they have been asked for.
    pub(crate) known: Vec<Option<Shared<SidePorts>>>,
}

impl PortTable {
    /// A table of which nothing has been asked.
    pub fn new(alloc: Global, names: &Names) -> Result<PortTable, NoMemory>
        ensures { IfOk result (IsTable names.now.files names.now.types) }
    {
        let declaring = declaring_files(alloc, names)?;
        let known = nothing_known(alloc, names.files.items().len())?;
        Ok(PortTable { declaring, known })
    }

    /// The ports that the file of this number declares, or the first of their faults.
    pub fn declared(
        &mut self,
        alloc: Global,
        names: &Names,
        file: u32,
    ) -> Result<Shared<SidePorts>, StageFault>
        requires table { IsTable names.now.files names.now.types self.old }
        requires file { file < length names.now.files }
        ensures table { IsTable names.now.files names.now.types self.new }
        ensures answer { Answers (declared_faults names.now.files names.now.types file) (λ ports. sides_held ports ≡ sides_of names.now.types (tree_ports (slice_get names.now.files file))) result }
    {
        if let Some(ports) = self.shared(file)? {
            return Ok(ports);
        }
        let ports = declared_ports(alloc, names, &names.files.items()[file as usize])?;
        let ports = Shared::of(alloc, ports)?;
        self.keep(file, ports.share()?);
        Ok(ports)
    }

    /// What the table has of a file, shared.
    fn shared(&self, file: u32) -> Result<Option<Shared<SidePorts>>, NoMemory>
        ensures { IfOk result (λ found. found ≡ option_and_then (λ known. known) (slice_get self.now.known.items file)) }
    {
        match self.known.get(file as usize) {
            Some(Some(ports)) => Ok(Some(ports.share()?)),
            _ => Ok(None),
        }
    }

    /// Has these ports of a file from now on.
    fn keep(&mut self, file: u32, ports: Shared<SidePorts>)
        requires file { file < length self.old.known.items }
        ensures declaring { self.new.declaring ≡ self.old.declaring }
        ensures known { self.new.known.items ≡ slice_set self.old.known.items file (Some ports) }
    {
        self.known[file as usize] = Some(ports);
    }

    /// The ports of the file of this number, or the first of their faults: those that it declares, and of a choice those
    /// of its first branch.
    pub fn ports(
        &mut self,
        alloc: Global,
        names: &Names,
        file: u32,
    ) -> Result<Shared<SidePorts>, StageFault>
        requires table { IsTable names.now.files names.now.types self.old }
        requires file { file < length names.now.files }
        ensures table { IsTable names.now.files names.now.types self.new }
        ensures answer { Answers (declared_faults names.now.files names.now.types (declaring names.now.files file)) (λ ports. sides_held ports ≡ sides_of names.now.types (ports_at names.now.files file)) result }
    {
        let declaring = self.declaring.items()[file as usize];
        self.declared(alloc, names, declaring)
    }

    /// The ports that a name stands for, or the first of their faults.
    pub fn ports_named(
        &mut self,
        alloc: Global,
        names: &Names,
        params: &Parameters,
        name: &str,
    ) -> Result<Shared<SidePorts>, StageFault>
        requires table { IsTable names.now.files names.now.types self.old }
        ensures table { IsTable names.now.files names.now.types self.new }
        ensures answer { Answers (named_faults names.now.files names.now.types (named_file names.now.files params.now.trees.now name.now)) (λ ports. sides_held ports ≡ sides_of names.now.types (ports_of names.now.files (named_file names.now.files params.now.trees.now name.now))) result }
    {
        match params.file(names, name) {
            Some(file) => self.ports(alloc, names, file),
            None => Ok(no_ports(alloc)?),
        }
    }

    /// The ports of a branch or an instance, or the first of their faults: those of what its reference names.
    fn part_ports(
        &mut self,
        alloc: Global,
        names: &Names,
        params: &Parameters,
        part: &BranchTree,
    ) -> Result<Shared<SidePorts>, StageFault>
        requires table { IsTable names.now.files names.now.types self.old }
        ensures table { IsTable names.now.files names.now.types self.new }
        ensures answer { Answers (part_faults names.now.files names.now.types params.now.trees.now part.now) (λ ports. sides_held ports ≡ sides_of names.now.types (spec.part_ports names.now.files params.now.trees.now part.now)) result }
    {
        self.ports_named(alloc, names, params, part.reference.name.name.as_str())
    }

    /// The branches or instances of a file with their ports, or the first fault of these.
    fn parts(
        &mut self,
        alloc: Global,
        names: &Names,
        params: &Parameters,
        parts: &[BranchTree],
    ) -> Result<List<ScopePart>, StageFault>
        requires table { IsTable names.now.files names.now.types self.old }
        ensures table { IsTable names.now.files names.now.types self.new }
        ensures answer { Answers (flat_map (part_faults names.now.files names.now.types params.now.trees.now) parts.now) (λ made. map part_held made ≡ map (part_scope names.now.files names.now.types params.now.trees.now) parts.now) result }
    {
        let mut made = Vec::new(alloc);
        for part in parts {
            let ports = self.part_ports(alloc, names, params, part)?;
            let name = part.name.name.copy(alloc)?;
            made.push(ScopePart { name, ports })?;
        }
        Ok(List::of(made))
    }

    /// The ports that the rules of the file of this number may name, or the first of their faults.
    pub fn scope(&mut self, alloc: Global, names: &Names, file: u32) -> Result<Scope, StageFault>
        requires table { IsTable names.now.files names.now.types self.old }
        requires file { file < length names.now.files }
        ensures table { IsTable names.now.files names.now.types self.new }
        ensures answer { (f : SourceFile) → slice_get names.now.files file ≡ Some f → Answers (scope_faults names.now.files names.now.types file f.tree) (λ scope. ports_held scope ≡ scope_at names.now.files names.now.types file f.tree) result }
    {
        let tree = &names.files.items()[file as usize].tree;
        let own = self.ports(alloc, names, file)?;
        let params = Parameters::of(alloc, params_of(tree))?;
        let parts = self.parts(alloc, names, &params, parts_of(tree))?;
        let numbers = places_of(alloc, parts_of(tree))?;
        Ok(Scope {
            own,
            parts,
            numbers,
        })
    }
}

/// No ports.
fn no_ports(alloc: Global) -> Result<Shared<SidePorts>, NoMemory>
    ensures { IfOk result (λ ports. sides_held ports ≡ record { provides = []; requires_ = [] }) }
{
    Shared::of(alloc, SidePorts::none(alloc))
}

/// Nothing for each of so many files.
fn nothing_known(alloc: Global, files: usize) -> Result<Vec<Option<Shared<SidePorts>>>, NoMemory>
    ensures { IfOk result (λ known. known.items ≡ replicate files None) }
{
    let mut known = Vec::new(alloc);
    for _ in 0..files {
        known.push(None)?;
    }
    Ok(known)
}

/// The ports that a file declares, by their sides, or the first of their faults.
fn declared_ports(alloc: Global, names: &Names, file: &SourceFile) -> Result<SidePorts, StageFault>
    requires small { IsSmall file.now.tree }
    ensures { Answers (file_port_faults names.now.types file.now) (λ ports. sides_held ports ≡ sides_of names.now.types (ports_in file.now.tree)) result }
{
    match sides_of(alloc, names, ports_in(&file.tree)) {
        Ok(ports) => Ok(ports),
        Err(stop) => Err(in_file(alloc, &file.name, stop)),
    }
}

/// The ports that the trees write, by their sides, or the first of their faults.
fn sides_of(alloc: Global, names: &Names, trees: &[PortTree]) -> Result<SidePorts, Stop<Fault>>
    requires few { length trees.now < 2 ^ 32 }
    ensures { Answers (flat_map (port_faults (poset_place names.now.types)) trees.now) (λ ports. sides_held ports ≡ sides_of names.now.types trees.now) result }
{
    side_ports(alloc, trees, names.posets())
}

/// The parameters of a file.
fn params_of(file: &File) -> &[ParamTree]
    ensures { result.now ≡ spec.params_of file.now }
{
    match file {
        File::Template(params, _) => params.items(),
        _ => &[],
    }
}

/// The branches or instances of a file.
fn parts_of(file: &File) -> &[BranchTree]
    ensures { result.now ≡ spec.parts_of file.now }
{
    match file {
        File::Design(body) => branches_of(body),
        File::Template(_, body) => branches_of(body),
        _ => &[],
    }
}

fn branches_of(body: &BodyTree) -> &[BranchTree]
    ensures { result.now ≡ branches_of body.now }
{
    match body {
        BodyTree::Catalogue { .. } => &[],
        BodyTree::Choose(branches) => branches.items(),
        BodyTree::Net { parts, .. } => parts.items(),
    }
}
