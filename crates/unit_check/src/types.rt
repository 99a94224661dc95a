ghost use Rattle.std.specs.Prelude.{◌≡◌, ◌<◌, Some, [], length, option_map, slice_get};
ghost use Rattle.std.specs.List.{flat_map};
ghost use Rattle.expr_lower.specs.Meanings.{lowered};
ghost use Rattle.expr_lower.specs.Reading.{reading};
ghost use Rattle.fault_list.specs.Answers.{Answers};
ghost use Rattle.fault_list.specs.Faults.{in_file};
ghost use Rattle.name_table.specs.Files.{name_at};
ghost use Rattle.name_table.specs.declared.source.SourceFile.{SourceFile};
ghost use Rattle.unit_check.specs.Held.{IsTable, ports_held};
ghost use Rattle.unit_check.specs.Scopes.{readable, scope_at};
ghost use Rattle.unit_check.specs.TypeFaults.{file_port_faults, file_rule_faults, rule_faults_from, scope_faults, type_faults};
ghost use Rattle.unit_check.specs.TypeFaults as spec;

use crate::rules::constraints_of;
use crate::scope::Scope;
use crate::table::PortTable;
use design_lexer::{BodyTree, ExprTree, File, RuleTree};
use expr_lower::{Lower, lower};
use fault_list::{StageFault, in_file};
use name_table::{Names, SourceFile};
use std::alloc::Global;

/// The first of what is wrong with the types of a library: with its ports, file by file, and then with its rules.
///
/// A port has `PortGrid`, `Exponent` or `ConstantRange`. A rule has `NoPort` at a place that is no port of the side that
/// is wanted, the faults of its expression, and `Mismatch` at its greater place where both sides have a type and these
/// differ.
pub fn check_types(alloc: Global, names: &Names) -> Result<(), StageFault>
    ensures { Answers (type_faults names.now.files names.now.types) (λ _. Unit {0}) result }
{
    let mut table = PortTable::new(alloc, names)?;
    check_ports(alloc, names, &mut table)?;
    check_files(alloc, names, &mut table)
}

/// The ports that the rules of the file of this number may name, or the first of the faults of these ports.
pub fn scope_of(alloc: Global, names: &Names, file: u32) -> Result<Scope, StageFault>
    requires file { file < length names.now.files }
    ensures { (f : SourceFile) → slice_get names.now.files file ≡ Some f → Answers (scope_faults names.now.files names.now.types file f.tree) (λ scope. ports_held scope ≡ scope_at names.now.files names.now.types file f.tree) result }
{
    let mut table = PortTable::new(alloc, names)?;
    table.scope(alloc, names, file)
}

/// The type and the meaning of an expression in the file of this number, over the ports of a scope, or the first of its
/// faults.
pub fn lower_of(
    alloc: Global,
    names: &Names,
    file: u32,
    scope: &Scope,
    tree: &ExprTree,
) -> Result<Lower, StageFault>
    requires file { file < length names.now.files }
    ensures { Answers (in_file (name_at names.now.files file) (reading names.now.types (readable (ports_held scope.now)) tree.now).faults) (λ made. option_map lowered (reading names.now.types (readable (ports_held scope.now)) tree.now).meaning ≡ Some made) result }
{
    match lower(alloc, tree, &names.types, names.posets(), scope) {
        Ok(made) => Ok(made),
        Err(stop) => Err(in_file(alloc, &names.files.items()[file as usize].name, stop)),
    }
}

/// The first fault of the ports of the files, which the table knows from then on.
fn check_ports(alloc: Global, names: &Names, table: &mut PortTable) -> Result<(), StageFault>
    requires table { IsTable names.now.files names.now.types table.old }
    ensures table { IsTable names.now.files names.now.types table.new }
    ensures answer { Answers (flat_map (file_port_faults names.now.types) names.now.files) (λ _. Unit {0}) result }
{
    for (number, _) in names.files.items().iter().enumerate() {
        table.declared(alloc, names, number as u32)?;
    }
    Ok(())
}

/// The first fault of the rules of the files, where the ports have none.
fn check_files(alloc: Global, names: &Names, table: &mut PortTable) -> Result<(), StageFault>
    requires table { IsTable names.now.files names.now.types table.old }
    requires ports { flat_map (file_port_faults names.now.types) names.now.files ≡ [] }
    ensures table { IsTable names.now.files names.now.types table.new }
    ensures answer { Answers (rule_faults_from names.now.files names.now.types 0 names.now.files) (λ _. Unit {0}) result }
{
    for (number, file) in names.files.items().iter().enumerate() {
        check_file(alloc, names, table, number as u32, file)?;
    }
    Ok(())
}

/// The first fault of the rules of this file, which is the one of this number.
fn check_file(
    alloc: Global,
    names: &Names,
    table: &mut PortTable,
    number: u32,
    file: &SourceFile,
) -> Result<(), StageFault>
    requires table { IsTable names.now.files names.now.types table.old }
    requires ports { flat_map (file_port_faults names.now.types) names.now.files ≡ [] }
    requires number { slice_get names.now.files number ≡ Some file.now }
    ensures table { IsTable names.now.files names.now.types table.new }
    ensures answer { Answers (file_rule_faults names.now.files names.now.types number file.now) (λ _. Unit {0}) result }
{
    let rules = rules_of(&file.tree);
    if rules.is_empty() {
        return Ok(());
    }
    let scope = table.scope(alloc, names, number)?;
    match constraints_of(alloc, names, &scope, rules) {
        Ok(_) => Ok(()),
        Err(stop) => Err(in_file(alloc, &file.name, stop)),
    }
}

/// The rules of a file, if it is a net.
fn rules_of(file: &File) -> &[RuleTree]
    ensures { result.now ≡ spec.rules_of file.now }
{
    match file {
        File::Design(body) => rules_in(body),
        File::Template(_, body) => rules_in(body),
        _ => &[],
    }
}

fn rules_in(body: &BodyTree) -> &[RuleTree]
    ensures { result.now ≡ spec.rules_in body.now }
{
    match body {
        BodyTree::Net { rules, .. } => rules.items(),
        _ => &[],
    }
}
