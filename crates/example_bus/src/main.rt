//! A message bus of a robot: three nodes agree on three services, and each hears what the others publish there.
#![tactic(auto)]

mod bus;
mod joined;
mod pose;

use anyhow::Result;
use bus::{Bus, advertise, follow, hear_on, listen, publish};
use iox_hub::prelude::*;
use pose::{Pose, hear_pose};
use std::fmt::Write;

/// Writes down all that waits at a port.
fn note(out: &mut String, alloc: Global, bus: &mut Bus, who: &str, port: PortId) -> Result<()> {
    for _ in 0..8 {
        let Some(heard) = hear_on(alloc, bus, port)? else {
            return Ok(());
        };
        writeln!(out, "{who}, at {}: {:?}", heard.stamp, heard.values)?;
    }
    Ok(())
}

/// Where the robot is: two numbers and a heading. The pilot hears it at this port.
fn odometry(
    alloc: Global,
    bus: &mut Bus,
    wheels: &NodeHandle,
    pilot: &NodeHandle,
) -> Result<PortId> {
    let odometry = advertise(alloc, bus, wheels, b"odometry", 3)?;
    let position = listen(alloc, bus, pilot, b"odometry")?;
    publish(alloc, bus, odometry, 100, &[0, 0, 90])?;
    publish(alloc, bus, odometry, 200, &[0, 5, 90])?;
    Ok(position)
}

/// Distances, as many as there were echoes. The pilot hears them at this port.
fn lidar(alloc: Global, bus: &mut Bus, scanner: &NodeHandle, pilot: &NodeHandle) -> Result<PortId> {
    let lidar = advertise(alloc, bus, scanner, b"lidar", 8)?;
    let echoes = listen(alloc, bus, pilot, b"lidar")?;
    publish(alloc, bus, lidar, 150, &[71, 68, 66, 70, 90])?;
    publish(alloc, bus, lidar, 250, &[])?;
    Ok(echoes)
}

/// Orders of the pilot. The wheels subscribe late, and get the last two orders at this port.
fn commands(
    alloc: Global,
    bus: &mut Bus,
    pilot: &NodeHandle,
    wheels: &NodeHandle,
) -> Result<PortId> {
    let commands = advertise(alloc, bus, pilot, b"commands", 2)?;
    publish(alloc, bus, commands, 10, &[1, 0])?;
    publish(alloc, bus, commands, 20, &[2, 45])?;
    publish(alloc, bus, commands, 30, &[1, 5])?;
    let orders = listen(alloc, bus, wheels, b"commands")?;
    follow(alloc, bus, commands)?;
    Ok(orders)
}

fn converse(out: &mut String, alloc: Global, bus: &mut Bus) -> Result<()> {
    let (wheels, scanner, pilot) = (bus.new_node()?, bus.new_node()?, bus.new_node()?);
    let position = odometry(alloc, bus, &wheels, &pilot)?;
    let echoes = lidar(alloc, bus, &scanner, &pilot)?;
    let orders = commands(alloc, bus, &pilot, &wheels)?;
    note(out, alloc, bus, "pilot, odometry", position)?;
    note(out, alloc, bus, "pilot, lidar", echoes)?;
    note(out, alloc, bus, "wheels, commands", orders)
}

/// A bus of values of the robot's own type: what the pilot hears of where the robot is.
fn drive(alloc: Global, poses: &mut Bus<Pose>) -> Result<Option<Pose>> {
    let (wheels, pilot) = (poses.new_node()?, poses.new_node()?);
    let odometry = advertise(alloc, poses, &wheels, b"pose", 1)?;
    let position = listen(alloc, poses, &pilot, b"pose")?;
    let pose = Pose {
        x: 0.5,
        y: -2.25,
        yaw: 90.0,
    };
    publish(alloc, poses, odometry, 100, &[pose])?;
    hear_pose(alloc, poses, position)
}

/// A new bus.
fn new_bus<T: Copy>(alloc: Global, id: u64) -> Bus<T> {
    Hub::new(
        alloc,
        HubConfig {
            expired_connection_buffer: 8,
            id,
        },
    )
}

fn main(rt: HostRuntime) -> Result<()> {
    let mut out = String::new(rt.alloc());
    let ending = converse(&mut out, rt.alloc(), &mut new_bus(rt.alloc(), 1));
    rt.print(&out)?;
    ending?;
    let driven = drive(rt.alloc(), &mut new_bus(rt.alloc(), 2))?;
    Ok(println!(rt; "pilot, pose: {driven:?}")?)
}
