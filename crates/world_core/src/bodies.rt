//! Which of the bodies that are handed in each task has.

ghost use Rattle.std.specs.Prelude.{◌≡◌, ◌↔◌, ◌++◌, All, IfOk, None, map};
ghost use Rattle.std.specs.List.{flat_map};
ghost use Rattle.std.specs.Str.{IsUtf8};
ghost use Rattle.app_graph.specs.Validation.{KeepsRules};
ghost use Rattle.world_core.specs.StandsFor.{HaveBodies, body_names, place_of_body};
ghost use Rattle.world_core.specs.TaskBodies.{HasTexts, bodies_in, bodies_of_mode, missing, missing_among, tasks_in};

use app_graph::{App, Mode, ModeSet, Name};
use std::alloc::{AllocError, Global};
use task_body::TaskBody;

/// The name as a text.
fn text(name: &Name) -> &str
    requires { IsUtf8 name.now }
    ensures { result.now ≡ name.now }
{
    match std::str::from_utf8(name.as_bytes()) {
        Ok(text) => text,
        Err(_) => "",
    }
}

/// The place of the first body with this name, the number of bodies where none has it.
fn place_of(bodies: &Vec<Box<dyn TaskBody>>, name: &Name) -> usize
    requires { IsUtf8 name.now }
    ensures { result ≡ place_of_body (map seen bodies.now.items) name.now }
{
    let text = text(name);
    for place in 0..bodies.len() {
        if bodies[place].as_ref().name_is(text) {
            return place;
        }
    }
    bodies.len()
}

/// Adds the places of the bodies of the application's tasks.
fn add_app(
    places: &mut Vec<usize>,
    app: &App,
    bodies: &Vec<Box<dyn TaskBody>>,
) -> Result<(), AllocError>
    requires { All (λ t. IsUtf8 t.body) app.now.tasks }
    ensures { IfOk result (λ _. places.new.items ≡ places.old.items
        ++ map (place_of_body (map seen bodies.now.items)) (bodies_in app.now)) }
{
    for task in app.tasks.as_slice() {
        places.push(place_of(bodies, &task.body))?;
    }
    Ok(())
}

/// Adds the places of the bodies of the mode's tasks.
fn add_mode(
    places: &mut Vec<usize>,
    mode: &Mode,
    bodies: &Vec<Box<dyn TaskBody>>,
) -> Result<(), AllocError>
    requires { All HasTexts mode.now.apps }
    ensures { IfOk result (λ _. places.new.items ≡ places.old.items
        ++ map (place_of_body (map seen bodies.now.items)) (bodies_of_mode mode.now)) }
{
    for app in mode.apps.as_slice() {
        add_app(places, app, bodies)?;
    }
    Ok(())
}

/// The place of each task's body among the bodies, by the task's number over the file. A name that
/// no body has stands at the place past the last one.
pub(crate) fn places(
    alloc: Global,
    set: &ModeSet,
    bodies: &Vec<Box<dyn TaskBody>>,
) -> Result<Vec<usize>, AllocError>
    requires { KeepsRules set.now }
    ensures { IfOk result (λ v. v.items
        ≡ map (place_of_body (map seen bodies.now.items)) (body_names set.now)) }
{
    let mut places = Vec::new(alloc);
    for mode in set.modes.as_slice() {
        add_mode(&mut places, mode, bodies)?;
    }
    Ok(places)
}

/// The number of the first of the application's tasks whose body is missing.
fn missing_in_app(app: &App, bodies: &Vec<Box<dyn TaskBody>>) -> Option<u32>
    requires { HasTexts app.now }
    ensures { result ≡ missing_among (map seen bodies.now.items) app.now.tasks }
{
    for task in app.tasks.as_slice() {
        if place_of(bodies, &task.body) == bodies.len() {
            return Some(task.number);
        }
    }
    None
}

/// The number of the first of the mode's tasks whose body is missing.
fn missing_in_mode(mode: &Mode, bodies: &Vec<Box<dyn TaskBody>>) -> Option<u32>
    requires { All HasTexts mode.now.apps }
    ensures { result ≡ missing_among (map seen bodies.now.items) (tasks_in mode.now) }
{
    for app in mode.apps.as_slice() {
        if let Some(task) = missing_in_app(app, bodies) {
            return Some(task);
        }
    }
    None
}

/// The first task, by its number over the file, whose body's name none of the bodies has. `None`
/// exactly where every task has a body. docs/WORLD.md has the rules.
pub fn missing_body(set: &ModeSet, bodies: &Vec<Box<dyn TaskBody>>) -> Option<u32>
    requires { KeepsRules set.now }

    ensures first { result ≡ missing (map seen bodies.now.items) set.now }
    ensures complete { result ≡ None ↔ HaveBodies set.now (map seen bodies.now.items) }
{
    for mode in set.modes.as_slice() {
        if let Some(task) = missing_in_mode(mode, bodies) {
            return Some(task);
        }
    }
    None
}
